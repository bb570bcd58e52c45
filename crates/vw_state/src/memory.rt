use vw_values::Via;

/// What is known of an address. Distances are in bytes; tables are counted from 0.
#[derive(Clone, Copy, PartialEq, Eq)]
pub enum Address {
    /// This distance from the value of rsp at the function's entry.
    Frame(i64),
    /// At least `low` and at most `high` from the heap's base.
    Heap {
        low: i128,
        high: i128,
    },
    /// At least `low` and at most `high` from the address of the globals.
    Globals {
        low: i128,
        high: i128,
    },
    /// This address of the image, counted from the load address.
    Image(u64),
    /// In the image, at `at` plus `scale` times a number below `k`.
    Range {
        at: u64,
        scale: u8,
        k: u64,
    },
    /// `disp` from the start of an entry of a table; the entry has the tag where one is known, and `via` is the
    /// register that tells which entry it is.
    Entry {
        table: u32,
        tag: Option<u64>,
        disp: u32,
        via: Via,
    },
    /// Nothing is known.
    Unknown,
}
