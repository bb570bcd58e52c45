//! What is left open to an instruction, and what is there after it.

use crate::{Flags, Write};

/// What stands for results and flags that are open: a number for the open result, a second one for
/// rdx where two registers are written, and flags. A store of an XMM register takes its bytes from
/// both numbers, the first below.
#[derive(Clone, Copy, Debug, PartialEq, Eq)]
pub struct Open {
    pub numbers: [u64; 2],
    pub flags: Flags,
}

/// Where control goes.
#[derive(Clone, Copy, Debug, PartialEq, Eq)]
pub enum Transfer {
    /// On to the next instruction.
    Next,
    /// To this address, which the instruction names or an operand holds.
    To(u64),
    /// Into the function at this address, once the address of the next instruction is pushed.
    Enter(u64),
    /// Back to the address that was read from the top of the stack.
    Back(u64),
    /// Nowhere: the instruction traps.
    Stop,
}

/// What an instruction leaves: the sixteen general registers by number, the flags, what it writes
/// to memory, and where control goes.
#[derive(Clone, Copy, Debug, PartialEq, Eq)]
pub struct After {
    pub registers: [u64; 16],
    pub flags: Flags,
    pub write: Option<Write>,
    pub transfer: Transfer,
}
