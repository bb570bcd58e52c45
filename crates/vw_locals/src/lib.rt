//! Sets of the written bytes of a function's frame.
#![tactic(auto)]

mod meet;
mod merge;
mod search;
mod written;

pub use written::Written;

#[cfg(test)]
mod tests;
