//! What a step does that a sandbox judges, and how it ends.

/// An access to memory, or a transfer of control.
#[derive(Clone, Copy, Debug, PartialEq, Eq)]
pub enum Event {
    /// A read of `size` bytes from address `at` up.
    Read { at: u64, size: u32 },
    /// A write of `size` bytes from address `at` up.
    Write { at: u64, size: u32 },
    /// A transfer of control to an address, also to that of the next instruction.
    Goto { to: u64 },
}

/// How a step ends.
#[derive(Clone, Copy, Debug, PartialEq, Eq)]
pub enum Outcome {
    /// It went through.
    Went,
    /// It went through, and control is at the host's return address.
    Returned,
    /// It trapped, and changed nothing.
    Trapped,
    /// It was not made, and nothing changed: this is the first of its events that is not permitted.
    Violation(Event),
}
