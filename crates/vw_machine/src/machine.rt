//! The state of a run.

use std::collections::BTreeMap;
use vw_effect::Flags;

/// A function, a stub or a function of the host that was entered and has not returned.
#[derive(Debug, Drop)]
pub struct Frame {
    /// The address at which it was entered.
    pub entry: u64,
    /// rsp when it was entered. Its return address lies there.
    pub rsp0: u64,
    /// Its return address.
    pub back: u64,
    /// The bytes of the stack below `rsp0` that it has written, by address, are true.
    pub written: BTreeMap<u64, bool>,
}

/// The machine in the middle of a run.
#[derive(Debug, Drop)]
pub struct Machine {
    /// The sixteen general registers, by number.
    pub registers: [u64; 16],
    /// The address at which the next step is made.
    pub rip: u64,
    /// The status flags.
    pub flags: Flags,
    /// The bytes of the stack, by address. One that is not here is 0.
    pub bytes: BTreeMap<u64, u8>,
    /// What was entered and has not returned, the one entered last at the end.
    pub active: Vec<Frame>,
}
