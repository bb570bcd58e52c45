//! The verdict on a module: its least tables where every function has a safe table, else the place where a
//! check fails.
#![tactic(auto)]

mod failing;
mod function;
mod module;

pub use module::{find_place, judge};
