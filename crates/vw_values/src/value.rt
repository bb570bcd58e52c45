/// Where the address lies at which a tag was read. Registers stand by their numbers, 0 to 15.
#[derive(Clone, Copy, PartialEq, Eq)]
pub enum Via {
    /// The address that the register holds.
    At(u8),
    /// The table's address plus what the register holds.
    Idx(u8),
}

/// What is known of a word of 64 bits. `Num`, `Const`, `Below`, `Low` and `Both` are the numbers; all others but
/// `Any` are symbols. Addresses count from the load address of the image, tables stand by their numbers from 0 to 63,
/// tags are below 2^32 - 1, and each `k` is at least 1.
#[derive(Clone, Copy, PartialEq, Eq)]
pub enum Value {
    /// Any word.
    Any,
    /// Any word, which is a number and no address.
    Num,
    /// This number.
    Const(u64),
    /// A number below this bound, which is at most 2^32, or is 2^33.
    Below(u64),
    /// A number whose low 32 bits are below this bound, which is below 2^32.
    Low(u64),
    /// A number below 2^33 whose low 32 bits are below this bound, which is below 2^32.
    Both(u64),
    /// The heap's base.
    HeapBase,
    /// The heap's base plus a number below 2^32.
    HeapAddr,
    /// The address of the globals.
    Globals,
    /// What this register held when the function was entered.
    Entry(u8),
    /// This address in the image.
    Image(u64),
    /// 16 times an index below `k`, which is at most 65,536. With a mark (t, g) the entry of table t at that index has
    /// the tag g; a mark names table 0.
    Index16 { k: u64, mark: Option<(u32, u64)> },
    /// The address of an entry of this table.
    EntryPtr(u32),
    /// The address of an entry of a table that has this tag.
    EntryTyped { table: u32, tag: u64 },
    /// The tag of the entry of a table whose address `via` tells.
    TagOf { table: u32, via: Via },
    /// The function's address in an entry of a table that has this tag.
    TableFn { table: u32, tag: u64 },
    /// A signed word of 32 bits at `a` plus four times an index below `k`, which is at most 65,536.
    JumpOff { a: u64, k: u64 },
    /// Such a word plus the address `a`.
    JumpDest { a: u64, k: u64 },
}
