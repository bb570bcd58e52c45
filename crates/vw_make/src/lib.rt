//! Writes whole modules: ELF64 shared objects for x86-64 with functions, import stubs, function tables and
//! data, byte for byte as defined; and makes them from a number, with as many functions as are wanted.
#![tactic(auto)]

mod buffer;
mod generator;
mod kinds;
mod layout;
mod parts;
mod plan;
mod records;
mod relocations;
mod sizes;
mod strings;
mod symbols;
mod tables;
mod text;
mod write;

pub use generator::make;
pub use parts::{Func, Parts, Target};
pub use write::write_module;

#[cfg(test)]
mod tests;
