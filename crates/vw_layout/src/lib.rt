//! The functions and tables of a module: an ELF64 shared object for x86-64 of which all 36 rules hold, or
//! the first broken rule of a file. The rules on headers (1 to 14) and on the dynamic section (15 to 26) are
//! read by the crates below; those on function symbols, on the tables of code pointers and on the number of
//! imports (27 to 36) are read here.
#![tactic(auto)]

mod calls;
mod faults;
mod functions;
mod laws;
mod layout;
mod symbols;
mod tables;

pub use calls::CallTarget;
pub use faults::ModuleError;
pub use functions::Function;
pub use laws::{
    call_targets_stand, entries_are_words, entries_can_be_called, functions_are_code,
    functions_ascend, import_names_differ, imports_are_few, tables_are_data, tables_are_few,
};
pub use layout::Module;
pub use tables::{TableEntry, TableInfo};

#[cfg(test)]
mod tests;
