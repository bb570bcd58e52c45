//! The rounds over a function: its least table, and where it may leave the code.
#![tactic(auto)]

mod all_rounds;
mod graph;
mod jumps;
mod looks;
mod round;
mod solved;
mod walk;

pub use all_rounds::Rounds;
pub use round::{rounds, rounds_at};
