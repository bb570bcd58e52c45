ghost use Rattle.std.specs.Prelude.{◌≡◌, ◌^◌, ◌==◌, ◌&&◌, ◌||◌, not, length, Some, None, option_copied, if◌then◌else◌};
ghost use Rattle.vw_bits.specs.Symbols.{symbol_type, is_defined};
ghost use Rattle.vw_bits.specs.Bounds.{AreBounded};
ghost use Rattle.vw_dynamic.specs.Targets.{strings_of, symbol_offset, symbol_of, name_at, adds_addend, defined_word};

use crate::directory::{Directory, table_offset};
use crate::relas::{R_64, RelaEntry};
use vw_bits::{Segment, Sym, Symbol, bytes_at, file_offset, short_string_at};

const STT_GNU_IFUNC: u8 = 10;

// The bytes of the string table, or none where it is not in the file.
pub(crate) fn strings_of<'a>(
    bytes: &'a [u8],
    segments: &[Segment],
    directory: &Directory,
) -> &'a [u8]
    requires inside { AreBounded (length bytes.now) segments.now }
    requires small { AreBounded (2 ^ 64) segments.now }
    ensures { result.now ≡ strings_of bytes.now segments.now directory.now }
{
    match table_offset(segments, directory.strtab, directory.strsz) {
        None => &[],
        Some(offset) => bytes_at(bytes, offset, directory.strsz.unwrap_or(0)),
    }
}

// The symbol with an index other than 0, where its entry is in the file part.
pub(crate) fn symbol_of(
    bytes: &[u8],
    segments: &[Segment],
    symtab: Option<u64>,
    index: u32,
) -> Option<Symbol>
    requires inside { AreBounded (length bytes.now) segments.now }
    requires small { AreBounded (2 ^ 64) segments.now }
    ensures { result ≡ symbol_of bytes.now segments.now symtab index }
{
    if index == 0 {
        return None;
    }
    let at = symbol_offset(segments, symtab, index)?;
    Some(Symbol::read(bytes, at))
}

// The file offset of the symbol with an index. An address past the last word is in no segment.
fn symbol_offset(segments: &[Segment], symtab: Option<u64>, index: u32) -> Option<u64>
    requires { AreBounded (2 ^ 64) segments.now }
    ensures { result ≡ symbol_offset segments.now symtab index }
{
    match symtab {
        None => None,
        Some(first) => match first.checked_add(Sym::SIZE * index as u64) {
            None => None,
            Some(address) => file_offset(segments, address, Sym::SIZE),
        },
    }
}

// The name of 1 to 1,024 bytes at an offset of the string table, if it ends there.
fn name_at(strings: &[u8], at: u32) -> Option<&[u8]>
    ensures { option_copied result ≡ name_at strings.now at }
{
    let name = short_string_at(strings, at)?;
    if name.is_empty() { None } else { Some(name) }
}

// Rule 26: what a relocation on a symbol that is no import adds to the load address, if it resolves.
pub(crate) fn defined_word(rela: &RelaEntry, symbol: &Symbol) -> Option<u64>
    ensures { result ≡ (if not (symbol_type symbol.now == 10) && is_defined symbol.now
        then Some (defined_word rela.now symbol.now) else None) }
{
    if is_indirect(symbol) || !symbol.is_defined() {
        return None;
    }
    if rela.kind == R_64 {
        Some(symbol.value.wrapping_add(rela.addend))
    } else {
        Some(symbol.value)
    }
}

// Rule 26: the name of the import that a relocation on one binds, if it resolves.
pub(crate) fn bound_name<'a>(
    strings: &'a [u8],
    rela: &RelaEntry,
    symbol: &Symbol,
) -> Option<&'a [u8]>
    ensures { option_copied result ≡ (if not (symbol_type symbol.now == 10)
        && (not (adds_addend rela.now) || rela.now.addend == 0)
        then name_at strings.now symbol.now.name else None) }
{
    if is_indirect(symbol) || rela.kind == R_64 && rela.addend != 0 {
        return None;
    }
    name_at(strings, symbol.name)
}

// Whether a symbol stands for a function that computes the address, STT_GNU_IFUNC.
fn is_indirect(symbol: &Symbol) -> bool
    ensures { result ≡ (symbol_type symbol.now == 10) }
{
    symbol.symbol_type() == STT_GNU_IFUNC
}
