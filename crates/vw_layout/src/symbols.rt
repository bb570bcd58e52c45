ghost use Rattle.std.specs.Prelude.{◌≡◌, ◌+◌, ◌*◌, ◌≤◌, ◌++◌, length, take, drop, filter, option_copied, IfOk, OnOk};
ghost use Rattle.vw_layout.specs.Bounds.{AreInside};
ghost use Rattle.vw_layout.specs.Symbols.{distinct_sections, entry_at, section_symbols, symbols_for, strings_of, name_of, is_function, is_tables_symbol, has_role};

use indexmap::IndexSet;
use std::alloc::Global;
use vw_bits::{OutOfMemory, Sym, Symbol, short_string_at};
use vw_elf::SymbolSection;

/// A symbol of a section of symbols, with the string table that holds its name.
#[derive(Clone, Copy, Debug)]
pub struct SymbolEntry {
    /// The entry of the symbol table.
    pub symbol: Symbol,
    /// The file offset of the section's string table.
    pub strings_at: u64,
    /// The string table's size in bytes.
    pub strings_size: u64,
}

/// What a symbol is read for.
#[derive(Clone, Copy, Debug, PartialEq, Eq)]
pub enum Role {
    /// A function symbol: defined, of type FUNC, of a size of at least 1.
    Function,
    /// A symbol of the tables: defined, of type OBJECT, named `lucet_tables`.
    Tables,
}

const STT_OBJECT: u8 = 1;

const STT_FUNC: u8 = 2;

const TABLES_NAME: &[u8] = b"lucet_tables";

// The sections, each once, in the order of their first headers: those with the same symbols and the same string
// table give nothing new, and a file can have thousands of them.
pub(crate) fn distinct_sections(
    alloc: Global,
    sections: &[SymbolSection],
) -> Result<IndexSet<SymbolSection>, OutOfMemory>
    ensures { IfOk result (λ set. set.keys ≡ distinct_sections sections.now) }
{
    let mut set = IndexSet::new(alloc);
    for section in sections {
        set.insert(*section)?;
    }
    Ok(set)
}

// The symbols of one role, by section and then by index.
pub(crate) fn read_symbols(
    alloc: Global,
    bytes: &[u8],
    sections: &[SymbolSection],
    role: Role,
) -> Result<Vec<SymbolEntry>, OutOfMemory>
    requires { AreInside (length bytes.now) sections.now }
    ensures { IfOk result (λ symbols. symbols.items ≡ symbols_for bytes.now sections.now role) }
{
    let mut symbols = Vec::new(alloc);
    for section in sections {
        append_section(bytes, section, role, &mut symbols)?;
    }
    Ok(symbols)
}

fn append_section(
    bytes: &[u8],
    section: &SymbolSection,
    role: Role,
    symbols: &mut Vec<SymbolEntry>,
) -> Result<(), OutOfMemory>
    requires { section.now.offset + 24 * section.now.count ≤ length bytes.now }
    ensures { OnOk result (symbols.new.items ≡ symbols.old.items ++ filter (has_role bytes.now role) (section_symbols bytes.now section.now)) }
{
    for index in 0..section.count {
        let entry = entry_at(bytes, section, section.offset + Sym::SIZE * index);
        if has_role(bytes, role, &entry) {
            symbols.push(entry)?;
        }
    }
    Ok(())
}

#[tactic(auto, unfolding(crate::specs::Symbols::entry_at))]
fn entry_at(bytes: &[u8], section: &SymbolSection, at: u64) -> SymbolEntry
    requires { at + 24 ≤ length bytes.now }
    ensures { result ≡ entry_at bytes.now section.now at }
{
    SymbolEntry {
        symbol: Symbol::read(bytes, at),
        strings_at: section.strings_at,
        strings_size: section.strings_size,
    }
}

fn has_role(bytes: &[u8], role: Role, entry: &SymbolEntry) -> bool
    ensures { result ≡ has_role bytes.now role entry.now }
{
    match role {
        Role::Function => is_function(entry),
        Role::Tables => is_tables_symbol(bytes, entry),
    }
}

fn is_function(entry: &SymbolEntry) -> bool
    ensures { result ≡ is_function entry.now }
{
    entry.symbol.is_defined() && entry.symbol.symbol_type() == STT_FUNC && entry.symbol.size >= 1
}

#[tactic(auto, unfolding(crate::specs::Symbols::is_tables_symbol))]
fn is_tables_symbol(bytes: &[u8], entry: &SymbolEntry) -> bool
    ensures { result ≡ is_tables_symbol bytes.now entry.now }
{
    if !entry.symbol.is_defined() || entry.symbol.symbol_type() != STT_OBJECT {
        return false;
    }
    match name_of(bytes, entry) {
        Some(name) => TABLES_NAME == name,
        None => false,
    }
}

// A symbol's name, where it ends inside the string table after at most 1,024 bytes.
#[tactic(auto, unfolding(crate::specs::Symbols::name_of))]
pub(crate) fn name_of<'a>(bytes: &'a [u8], entry: &SymbolEntry) -> Option<&'a [u8]>
    ensures { option_copied result ≡ name_of bytes.now entry.now }
{
    short_string_at(strings_of(bytes, entry), entry.symbol.name)
}

// The bytes of the string table of a symbol's section.
fn strings_of<'a>(bytes: &'a [u8], entry: &SymbolEntry) -> &'a [u8]
    ensures { result.now ≡ strings_of bytes.now entry.now }
{
    let rest = from(bytes, entry.strings_at);
    up_to(rest, entry.strings_size)
}

// The bytes from an offset on.
fn from(bytes: &[u8], at: u64) -> &[u8]
    ensures { result.now ≡ drop at bytes.now }
{
    &bytes[(at as usize).min(bytes.len())..]
}

// The first bytes, `size` of them or all where there are fewer.
fn up_to(bytes: &[u8], size: u64) -> &[u8]
    ensures { result.now ≡ take size bytes.now }
{
    &bytes[..(size as usize).min(bytes.len())]
}
