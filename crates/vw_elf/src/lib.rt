//! The headers of an ELF64 shared object for x86-64: its segments, its dynamic sections and its sections
//! of symbols, or the first broken rule of those on the length, the header, the program headers and the
//! section headers (rules 1 to 14 of a module).
#![tactic(auto)]

mod elf;
mod faults;
mod header;
mod sections;
mod segments;

pub use elf::Elf;
pub use faults::ElfError;
pub use sections::SymbolSection;

#[cfg(test)]
mod tests;
