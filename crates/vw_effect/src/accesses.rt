//! Accesses of an instruction to memory.

/// A read of `size` bytes, 1 to 16, from address `at` up. An address is a word; the bytes of an
/// access may go past the last address.
#[derive(Clone, Copy, Debug, PartialEq, Eq)]
pub struct Access {
    pub at: u64,
    pub size: u32,
}

/// What an instruction reads, in order.
#[derive(Clone, Copy, Debug, PartialEq, Eq)]
pub enum Reads {
    Nothing,
    One(Access),
    /// Both operands of ADD, OR, ADC, SBB, AND, SUB, XOR or CMP in memory, which no opcode row
    /// gives.
    Two(Access, Access),
}

/// A write of the low `size` bytes, 1 to 16, of a value, which has no more, from address `at` up,
/// the least significant byte first.
#[derive(Clone, Copy, Debug, PartialEq, Eq)]
pub struct Write {
    pub at: u64,
    pub size: u32,
    pub value: u128,
}
