ghost use Rattle.std.specs.Prelude.{◌≡◌, ℕ, ◌<◌, ◌^◌, not, ◌==◌, false, map, length, IfOk, IfErr, OnOk};
ghost use Rattle.std.specs.BTreeMap.{get, keys};
ghost use Rattle.std.specs.Ordering.{nat_cmp};
ghost use Rattle.std.specs.List.{find, list_any, filter_map};
ghost use Rattle.std.specs.Option.{option_map_or};
ghost use Rattle.vw_bits.specs.Rules.{lowest_broken, AllHold};
ghost use Rattle.vw_bits.specs.Bounds.{AreBounded};
ghost use Rattle.vw_layout.specs.Bounds.{AreInside, AreShort, Rises};
ghost use Rattle.vw_layout.specs.Faults.{Names};
ghost use Rattle.vw_layout.specs.Symbols.{symbols_for};
ghost use Rattle.vw_layout.specs.Functions.{symbol_offset, is_nameless, is_code, is_misplaced, first_at, addresses_of, by_address, first_overlap, first_excess, function_rules, function_of, functions_of};

use crate::ModuleError;
use crate::faults::refuse;
use crate::symbols::{Role, SymbolEntry, name_of, read_symbols};
use bitflags::Flags;
use std::alloc::Global;
use std::collections::{BTreeMap, BTreeSet};
use vw_bits::{List, OutOfMemory, Rights, Segment, Text, is_among};
use vw_elf::SymbolSection;

/// A declared function of a module.
#[derive(Debug, Drop)]
pub struct Function {
    /// The address of its first byte, counted from the load address.
    pub entry: u64,
    /// Its size in bytes, 1 to 1,048,576.
    pub size: u32,
    /// Its name: that of the first function symbol of its address, 0 to 1,024 bytes. Symbols go by section
    /// header and then by index.
    pub name: Text,
}

/// The greatest size of a function, in bytes.
const MAX_SIZE: u64 = 1_048_576;

/// The greatest number of functions.
const MAX_FUNCTIONS: usize = 65_536;

// The functions that the function symbols of a file declare, or the first broken rule of 27 to 31.
pub(crate) fn read_functions(
    alloc: Global,
    bytes: &[u8],
    segments: &[Segment],
    sections: &[SymbolSection],
) -> Result<List<Function>, ModuleError>
    requires inside { AreInside (length bytes.now) sections.now }
    requires small { AreBounded (2 ^ 64) segments.now }
    ensures ok { IfOk result (λ functions. functions ≡ functions_of bytes.now (symbols_for bytes.now sections.now Role.Function)) }
    ensures rules { OnOk result (AllHold (function_rules bytes.now segments.now (symbols_for bytes.now sections.now Role.Function))) }
    ensures fault { IfErr result (Names (lowest_broken 27 (function_rules bytes.now segments.now (symbols_for bytes.now sections.now Role.Function)))) }
{
    let symbols = read_symbols(alloc, bytes, sections, Role::Function).map_err(
        ModuleError::Memory,
    )?;
    let firsts = check_symbols(alloc, bytes, segments, symbols.as_slice())?;
    let functions = declare(alloc, bytes, firsts.as_slice()).map_err(ModuleError::Memory)?;
    Ok(functions)
}

// Rules 27 to 31, and the first symbol of each address, by ascending address.
fn check_symbols(
    alloc: Global,
    bytes: &[u8],
    segments: &[Segment],
    symbols: &[SymbolEntry],
) -> Result<Vec<SymbolEntry>, ModuleError>
    requires { AreBounded (2 ^ 64) segments.now }
    ensures ok { IfOk result (λ functions. functions.items ≡ by_address symbols.now) }
    ensures rules { OnOk result (AllHold (function_rules bytes.now segments.now symbols.now)) }
    ensures fault { IfErr result (Names (lowest_broken 27 (function_rules bytes.now segments.now symbols.now))) }
{
    refuse(27, first_nameless(bytes, symbols))?;
    refuse(28, first_misplaced(segments, symbols))?;
    let firsts = first_symbols(alloc, symbols).map_err(ModuleError::Memory)?;
    refuse(29, first_resized(&firsts, symbols))?;
    let functions = in_order(alloc, &firsts).map_err(ModuleError::Memory)?;
    refuse(30, first_overlap(functions.as_slice()))?;
    refuse(
        31,
        first_excess(alloc, symbols).map_err(ModuleError::Memory)?,
    )?;
    Ok(functions)
}

// Rule 27: the first symbol without a name that ends inside its string table.
fn first_nameless(bytes: &[u8], symbols: &[SymbolEntry]) -> Option<u64>
    ensures { result ≡ symbol_offset (find (is_nameless bytes.now) symbols.now) }
{
    symbols
        .iter()
        .find(|s| name_of(bytes, s).is_none())
        .map(|s| s.symbol.at)
}

// Rule 28: the first symbol of too long a function, or of one outside the code.
fn first_misplaced(segments: &[Segment], symbols: &[SymbolEntry]) -> Option<u64>
    ensures { result ≡ symbol_offset (find (is_misplaced segments.now) symbols.now) }
{
    symbols
        .iter()
        .find(|s| is_misplaced(segments, s))
        .map(|s| s.symbol.at)
}

fn is_misplaced(segments: &[Segment], entry: &SymbolEntry) -> bool
    ensures { result ≡ is_misplaced segments.now entry.now }
{
    !(entry.symbol.size <= MAX_SIZE && is_in_code(segments, entry))
}

fn is_in_code(segments: &[Segment], entry: &SymbolEntry) -> bool
    ensures { result ≡ list_any (λ segment. is_code segment entry.now) segments.now }
{
    segments.iter().any(|segment| is_code(segment, entry))
}

fn is_code(segment: &Segment, entry: &SymbolEntry) -> bool
    ensures { result ≡ is_code segment.now entry.now }
{
    segment.rights.contains(Rights::R)
        && segment.rights.contains(Rights::X)
        && is_among(
            segment.vaddr,
            segment.filesz,
            entry.symbol.value,
            entry.symbol.size,
        )
}

// The first symbol of each address, by its address.
fn first_symbols(
    alloc: Global,
    symbols: &[SymbolEntry],
) -> Result<BTreeMap<u64, SymbolEntry>, OutOfMemory>
    ensures firsts { IfOk result (λ firsts. (address : ℕ) → get nat_cmp firsts address ≡ first_at symbols.now address) }
    ensures keys { IfOk result (λ firsts. keys firsts ≡ addresses_of symbols.now) }
{
    let mut firsts = BTreeMap::new(alloc);
    for symbol in symbols {
        let address = symbol.symbol.value;
        let first = firsts.get(&address).copied().unwrap_or(*symbol);
        firsts.insert(address, first)?;
    }
    Ok(firsts)
}

// Rule 29: the first symbol of another size than the first of its address.
fn first_resized(firsts: &BTreeMap<u64, SymbolEntry>, symbols: &[SymbolEntry]) -> Option<u64>
    ensures { result ≡ symbol_offset (find (λ s. option_map_or (λ first. not (first.symbol.size == s.symbol.size)) (get nat_cmp firsts.now s.symbol.value) false) symbols.now) }
{
    symbols
        .iter()
        .find(|s| is_resized(firsts, s))
        .map(|s| s.symbol.at)
}

fn is_resized(firsts: &BTreeMap<u64, SymbolEntry>, entry: &SymbolEntry) -> bool
    ensures { result ≡ option_map_or (λ first. not (first.symbol.size == entry.now.symbol.size)) (get nat_cmp firsts.now entry.now.symbol.value) false }
{
    match firsts.get(&entry.symbol.value) {
        Some(first) => first.symbol.size != entry.symbol.size,
        None => false,
    }
}

// The symbols of a map, by ascending address.
fn in_order(
    alloc: Global,
    firsts: &BTreeMap<u64, SymbolEntry>,
) -> Result<Vec<SymbolEntry>, OutOfMemory>
    ensures { IfOk result (λ functions. functions.items ≡ filter_map (get nat_cmp firsts.now) (keys firsts.now)) }
{
    Ok(
        firsts
            .keys()
            .filter_map(|address| firsts.get(address).copied())
            .collect(alloc)?,
    )
}

// Rule 30: the first function, by ascending address, that shares a byte with one before it. While none does,
// the one before ends last.
fn first_overlap(functions: &[SymbolEntry]) -> Option<u64>
    requires rises { Rises 0 (map (λ s. s.symbol.value) functions.now) }
    requires short { AreShort functions.now }
    ensures { result ≡ symbol_offset (first_overlap functions.now) }
{
    let mut end = 0;
    for function in functions {
        let start = function.symbol.value;
        if start < end {
            return Some(function.symbol.at);
        }
        end = start + function.symbol.size;
    }
    None
}

// Rule 31: the symbol that first has the 65,537th address.
fn first_excess(alloc: Global, symbols: &[SymbolEntry]) -> Result<Option<u64>, OutOfMemory>
    ensures { IfOk result (λ found. found ≡ symbol_offset (first_excess symbols.now)) }
{
    let mut addresses = BTreeSet::new(alloc);
    for symbol in symbols {
        let address = symbol.symbol.value;
        if !addresses.contains(&address) && addresses.len() >= MAX_FUNCTIONS {
            return Ok(Some(symbol.symbol.at));
        }
        addresses.insert(address)?;
    }
    Ok(None)
}

// The functions that these symbols declare.
fn declare(
    alloc: Global,
    bytes: &[u8],
    symbols: &[SymbolEntry],
) -> Result<List<Function>, OutOfMemory>
    requires { AreShort symbols.now }
    ensures { IfOk result (λ functions. functions ≡ map (function_of bytes.now) symbols.now) }
{
    let mut functions = List::new(alloc);
    for symbol in symbols {
        functions.push(function_of(alloc, bytes, symbol)?)?;
    }
    Ok(functions)
}

fn function_of(alloc: Global, bytes: &[u8], entry: &SymbolEntry) -> Result<Function, OutOfMemory>
    requires { entry.now.symbol.size < 2 ^ 32 }
    ensures { IfOk result (λ function. function ≡ function_of bytes.now entry.now) }
{
    let mut name = Text::new(alloc);
    name.push(name_of(bytes, entry).unwrap_or(&[]))?;
    Ok(Function {
        entry: entry.symbol.value,
        size: entry.symbol.size as u32,
        name,
    })
}
