//! Entries of tables of functions: which entry of a table an operand lies in, by what is known of its registers.
#![tactic(auto)]

mod entries;

pub use entries::{EntryRef, entry_of};

#[cfg(test)]
mod tests;
