//! The decoder: the instruction that the front of some bytes spells, and how many bytes it has.
#![tactic(auto)]

mod decoding;
mod head;
mod laws;
mod tail;

pub use decoding::{decode, one_spelling};
pub use laws::{one_row_per_spelling, read_is_spelling};

#[cfg(test)]
mod tests;
