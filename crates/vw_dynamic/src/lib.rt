//! The dynamic section of an ELF64 shared object for x86-64: its relocations and the names of its imports,
//! or the first broken rule of those on the section, its entries and its relocations (rules 15 to 26 of a
//! module).
#![tactic(auto)]

mod directory;
mod dynamic;
mod entries;
mod faults;
mod imports;
mod relas;
mod symbols;

pub use dynamic::{Dynamic, RelKind, Relocation};
pub use faults::DynError;
pub use imports::Imports;
