//! What is there before an instruction.

use crate::{Flags, Open};

/// What an instruction works on: the address of the next one, the general registers by number, the
/// flags, the number that was loaded, and what stands for what is left open.
#[derive(Clone, Copy)]
pub struct Before<'a> {
    pub next: u64,
    pub registers: &'a [u64; 16],
    pub flags: Flags,
    pub loaded: u64,
    pub open: &'a Open,
}
