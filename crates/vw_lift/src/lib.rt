//! Lifting: the statements of each instruction.
#![tactic(auto)]

mod arithmetic;
mod laws;
mod lifting;
mod moves;
mod operands;
mod xmm;

pub use laws::{effect_is_a_run, lists_are_in_form};
pub use lifting::lift;

#[cfg(test)]
mod tests;
