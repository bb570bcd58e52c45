ghost use Rattle.std.specs.Prelude.{◌≡◌, ◌<◌, ◌^◌, length};
ghost use Rattle.std.specs.List.{sum_by};
ghost use Rattle.vw_make.specs.Bounds.{MeetsBounds};
ghost use Rattle.vw_make.specs.Layout.{sizes_of, relocation_count, symbol_count, symbol_strings_size, strings_size, function_names, function_space, filled_entries};

use crate::buffer::round_up;
use crate::parts::{Func, Parts};
use vw_bits::{List, Text};

/// How large the parts of a module are.
#[derive(Clone, Copy)]
pub struct Sizes {
    /// How many imports there are.
    pub imports: u64,
    /// The bytes of the string table of the dynamic symbols.
    pub dynamic_strings: u64,
    /// The bytes of the relocation table.
    pub relocations: u64,
    /// The bytes of the functions in the text.
    pub functions: u64,
    /// How many tables there are.
    pub tables: u64,
    /// How many entries they have together.
    pub entries: u64,
    /// The bytes of the data.
    pub content: u64,
    /// The bytes of the symbol table.
    pub symbols: u64,
    /// The bytes of its string table.
    pub strings: u64,
}

/// The sizes of these parts.
pub fn measure(parts: &Parts) -> Sizes
    requires { MeetsBounds parts.now }
    ensures { result ≡ sizes_of parts.now }
{
    let functions = parts.functions.as_slice();
    let imports = parts.imports.as_slice();
    let tables = parts.tables.as_slice();
    Sizes {
        imports: imports.len() as u64,
        dynamic_strings: import_strings_size(imports),
        relocations: 24 * relocation_count_of(parts),
        functions: functions_size(functions),
        tables: tables.len() as u64,
        entries: entry_count(tables),
        content: round_up(parts.content.as_slice().len() as u64, 8),
        symbols: 24 * symbol_count_of(parts),
        strings: symbol_strings_size_of(parts),
    }
}

// How many relocations there are.
fn relocation_count_of(parts: &Parts) -> u64
    requires { MeetsBounds parts.now }
    ensures { result ≡ relocation_count parts.now }
{
    let imports = parts.imports.len() as u64;
    let tables = parts.tables.as_slice();
    let binds = parts.binds.len() as u64;
    imports + tables.len() as u64 + filled_count(tables) + binds
}

// How many symbols there are.
fn symbol_count_of(parts: &Parts) -> u64
    requires { MeetsBounds parts.now }
    ensures { result ≡ symbol_count parts.now }
{
    let functions = parts.functions.len() as u64;
    if parts.tables.is_empty() {
        return 1 + functions;
    }
    1 + functions + 1
}

// The bytes of the string table of the symbols.
fn symbol_strings_size_of(parts: &Parts) -> u64
    requires { MeetsBounds parts.now }
    ensures { result ≡ symbol_strings_size parts.now }
{
    let size = function_strings_size(parts.functions.as_slice());
    if parts.tables.is_empty() {
        return size;
    }
    size + 13
}

// The bytes of the string table with the names of the imports.
fn import_strings_size(imports: &[Text]) -> u64
    requires { strings_size imports.now < 2 ^ 32 }
    ensures { result ≡ strings_size imports.now }
{
    let mut size = 1;
    for import in imports {
        size += import.as_slice().len() as u64 + 1;
    }
    size
}

// The bytes of a string table with the names of the functions.
fn function_strings_size(functions: &[Func]) -> u64
    requires { strings_size (function_names functions.now) < 2 ^ 32 }
    ensures { result ≡ strings_size (function_names functions.now) }
{
    let mut size = 1;
    for func in functions {
        size += func.name.as_slice().len() as u64 + 1;
    }
    size
}

// The bytes of the functions in the text.
fn functions_size(functions: &[Func]) -> u64
    requires { sum_by function_space functions.now < 2 ^ 32 }
    ensures { result ≡ sum_by function_space functions.now }
{
    let mut size = 0;
    for func in functions {
        size += round_up(func.code.as_slice().len() as u64, 16);
    }
    size
}

// The entries of all tables.
fn entry_count(tables: &[List<(u64, Option<u32>)>]) -> u64
    requires { sum_by length tables.now < 2 ^ 32 }
    ensures { result ≡ sum_by length tables.now }
{
    let mut count = 0;
    for entries in tables {
        count += entries.len() as u64;
    }
    count
}

// The entries of all tables that are not empty.
fn filled_count(tables: &[List<(u64, Option<u32>)>]) -> u64
    requires { sum_by filled_entries tables.now < 2 ^ 32 }
    ensures { result ≡ sum_by filled_entries tables.now }
{
    let mut count = 0;
    for entries in tables {
        count += filled_in(entries.as_slice());
    }
    count
}

// The entries of a table that are not empty.
fn filled_in(entries: &[(u64, Option<u32>)]) -> u64
    ensures { result ≡ filled_entries entries.now }
{
    entries.iter().filter(|entry| entry.1.is_some()).count() as u64
}
