//! What is known of a function's stack: how far a register is from the stack pointer at the function's
//! entry, and how deep the stack was probed.
#![tactic(auto)]

mod depth;
mod offset;

pub use depth::Depth;
pub use offset::Offset;

#[cfg(test)]
mod tests;
