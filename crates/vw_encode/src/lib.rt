//! The bytes of an instruction: of all its spellings the one that comes first.
#![tactic(auto)]

mod asked;
mod buffer;
mod candidate;
mod encoding;
mod kinds;
mod lean;
mod search;

pub use buffer::Spelled;
pub use encoding::{NotEncodable, encode};

#[cfg(test)]
mod tests;
