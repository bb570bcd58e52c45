ghost use Rattle.std.specs.Prelude.{◌≡◌, ◌+◌, ◌%◌, ◌≤◌, ◌<◌, ◌&&◌, ◌||◌, ◌==◌, not, true, nat_le, nat_lt, length, Some, None, if◌then◌else◌, IfOk};
ghost use Rattle.vw_bits.specs.Headers.{sh_type, sh_link, e_shnum, section_header};
ghost use Rattle.vw_bits.specs.HeaderRules.{is_symbol_section, section_inside, symbol_section_fits, section_table_rule, symbol_section_rule, SectionsInside};
ghost use Rattle.vw_elf.specs.FileHeaders.{IsHeaderOf};
ghost use Rattle.vw_elf.specs.SymbolSections.{symbol_section_at, symbol_sections};

use crate::faults::unless;
use crate::header::{E_SHENTSIZE, E_SHOFF, is_inside, table_is_inside};
use std::alloc::Global;
use vw_bits::{FileHeader, List, OutOfMemory, SectionHeader, Sym};

/// A section of symbols (gABI, "Symbol Table": SHT_SYMTAB or SHT_DYNSYM) and its string table.
#[derive(Clone, Copy, Debug, PartialEq, Eq, Hash)]
pub struct SymbolSection {
    /// The file offset of the first symbol.
    pub offset: u64,
    /// How many symbols of 24 bytes there are.
    pub count: u64,
    /// The file offset of the string table.
    pub strings_at: u64,
    /// The string table's size in bytes.
    pub strings_size: u64,
}

const SHT_SYMTAB: u32 = 2;

const SHT_STRTAB: u32 = 3;

const SHT_DYNSYM: u32 = 11;

// Rule 13: the section headers are in the file.
#[tactic(auto, unfolding(vw_bits::specs::HeaderRules::section_table_rule))]
pub(crate) fn broken_section_table(bytes: &[u8], header: &FileHeader) -> Option<u64>
    requires { IsHeaderOf bytes.now header.now }
    ensures { result ≡ section_table_rule bytes.now }
{
    let count = header.e_shnum;
    if count == 0 {
        return None;
    }
    if header.e_shentsize as u64 != SectionHeader::SIZE {
        return Some(E_SHENTSIZE);
    }
    let len = bytes.len() as u64;
    unless(
        table_is_inside(header.e_shoff, SectionHeader::SIZE, count, len),
        E_SHOFF,
    )
}

// Rule 14: the first section of symbols that is not whole.
pub(crate) fn broken_symbol_section(bytes: &[u8], header: &FileHeader) -> Option<u64>
    requires header { IsHeaderOf bytes.now header.now }
    requires table { SectionsInside bytes.now }
    ensures { result ≡ symbol_section_rule bytes.now }
{
    for index in 0..header.e_shnum {
        let at = header.e_shoff + SectionHeader::SIZE * index as u64;
        if is_broken(bytes, header, at) {
            return Some(at);
        }
    }
    None
}

#[tactic(auto, unfolding(vw_bits::specs::HeaderRules::symbol_section_fits, vw_bits::specs::HeaderRules::has_strings))]
fn is_broken(bytes: &[u8], header: &FileHeader, at: u64) -> bool
    requires header { IsHeaderOf bytes.now header.now }
    requires inside { at + 64 ≤ length bytes.now }
    requires table { SectionsInside bytes.now }
    ensures { result ≡ (is_symbol_section bytes.now at && not (symbol_section_fits bytes.now at)) }
{
    let section = SectionHeader::read(bytes, at);
    holds_symbols(&section)
        && !(has_whole_entries(&section)
            && section_is_inside(bytes, &section)
            && has_strings(bytes, header, section.sh_link))
}

fn holds_symbols(section: &SectionHeader) -> bool
    ensures { result ≡ (section.now.sh_type == 2 || section.now.sh_type == 11) }
{
    section.sh_type == SHT_SYMTAB || section.sh_type == SHT_DYNSYM
}

fn has_whole_entries(section: &SectionHeader) -> bool
    ensures { result ≡ (section.now.sh_entsize == 24 && section.now.sh_size % 24 == 0) }
{
    section.sh_entsize == Sym::SIZE && section.sh_size % Sym::SIZE == 0
}

fn section_is_inside(bytes: &[u8], section: &SectionHeader) -> bool
    ensures { result ≡ nat_le (section.now.sh_offset + section.now.sh_size) (length bytes.now) }
{
    is_inside(section.sh_offset, section.sh_size, bytes.len() as u64)
}

// Whether `link` is the index of a string table that is in the file.
fn has_strings(bytes: &[u8], header: &FileHeader, link: u32) -> bool
    requires header { IsHeaderOf bytes.now header.now }
    requires table { SectionsInside bytes.now }
    ensures { result ≡ (nat_lt link (e_shnum bytes.now)
        && sh_type bytes.now (section_header bytes.now link) == 3
        && section_inside bytes.now (section_header bytes.now link)) }
{
    if link >= header.e_shnum as u32 {
        return false;
    }
    let at = header.e_shoff + SectionHeader::SIZE * link as u64;
    let strings = SectionHeader::read(bytes, at);
    strings.sh_type == SHT_STRTAB && section_is_inside(bytes, &strings)
}

// The sections of symbols, in the order of their headers.
pub(crate) fn read_symbol_sections(
    alloc: Global,
    bytes: &[u8],
    header: &FileHeader,
) -> Result<List<SymbolSection>, OutOfMemory>
    requires header { IsHeaderOf bytes.now header.now }
    requires table { SectionsInside bytes.now }
    requires whole { symbol_section_rule bytes.now ≡ None }
    ensures { IfOk result (λ sections. sections ≡ symbol_sections bytes.now) }
{
    let mut sections = List::new(alloc);
    for index in 0..header.e_shnum {
        let at = header.e_shoff + SectionHeader::SIZE * index as u64;
        if let Some(section) = symbol_section_at(bytes, header, at) {
            sections.push(section)?;
        }
    }
    Ok(sections)
}

// The section that a section header describes, where it is one of symbols.
#[tactic(auto, unfolding(crate::specs::SymbolSections::symbol_section_at))]
fn symbol_section_at(bytes: &[u8], header: &FileHeader, at: u64) -> Option<SymbolSection>
    requires header { IsHeaderOf bytes.now header.now }
    requires inside { at + 64 ≤ length bytes.now }
    requires table { SectionsInside bytes.now }
    requires link { is_symbol_section bytes.now at ≡ true → sh_link bytes.now at < e_shnum bytes.now }
    ensures { result ≡ (if is_symbol_section bytes.now at then Some (symbol_section_at bytes.now at) else None) }
{
    let section = SectionHeader::read(bytes, at);
    if !holds_symbols(&section) {
        return None;
    }
    let strings_header = header.e_shoff + SectionHeader::SIZE * section.sh_link as u64;
    let strings = SectionHeader::read(bytes, strings_header);
    Some(SymbolSection {
        offset: section.sh_offset,
        count: section.sh_size / Sym::SIZE,
        strings_at: strings.sh_offset,
        strings_size: strings.sh_size,
    })
}
