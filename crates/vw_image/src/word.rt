/// What a range of an image holds after relocation.
#[derive(Clone, Copy, Debug, PartialEq, Eq)]
pub enum Word {
    /// This number, the least significant byte first, wherever the image is loaded.
    Plain(u64),
    /// The load address and this number, modulo 2^64.
    Based(u64),
    /// The address of the import with this number.
    Bound(u32),
    /// A relocation changes some of the bytes, and no relocation stands exactly there, or they are fewer than the
    /// eight that it changes.
    Mixed,
    /// No relocation changes the bytes, and they are not in the memory of one segment with the right to read.
    Outside,
}
