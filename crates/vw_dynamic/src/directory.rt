ghost use Rattle.std.specs.Prelude.{◌≡◌, ◌^◌, not, is_some, Some, None};
ghost use Rattle.std.specs.List.{find};
ghost use Rattle.vw_bits.specs.Bounds.{AreBounded};
ghost use Rattle.vw_dynamic.specs.Entries.{offset_of};
ghost use Rattle.vw_dynamic.specs.Directory.{value_of, directory_of, is_misfit, lacks_strings, is_unplaced, table_offset};

use crate::entries::Entry;
use vw_bits::{Rela, Segment, file_offset};

/// The tables that the dynamic section names: addresses and sizes in bytes, where they stand.
#[derive(Clone, Copy, Debug)]
pub struct Directory {
    /// DT_STRTAB: the address of the string table.
    pub strtab: Option<u64>,
    /// DT_STRSZ: its size.
    pub strsz: Option<u64>,
    /// DT_SYMTAB: the address of the symbol table.
    pub symtab: Option<u64>,
    /// DT_RELA: the address of the relocation table.
    pub rela: Option<u64>,
    /// DT_RELASZ: its size.
    pub relasz: Option<u64>,
    /// DT_JMPREL: the address of the relocations of the procedure linkage table.
    pub jmprel: Option<u64>,
    /// DT_PLTRELSZ: their size.
    pub pltrelsz: Option<u64>,
}

const DT_PLTRELSZ: u64 = 2;

const DT_STRTAB: u64 = 5;

const DT_SYMTAB: u64 = 6;

const DT_RELA: u64 = 7;

const DT_RELASZ: u64 = 8;

const DT_RELAENT: u64 = 9;

const DT_STRSZ: u64 = 10;

const DT_PLTREL: u64 = 20;

const DT_JMPREL: u64 = 23;

#[tactic(auto, unfolding(crate::specs::Directory::directory_of))]
pub(crate) fn directory_of(entries: &[Entry]) -> Directory
    ensures { result ≡ directory_of entries.now }
{
    Directory {
        strtab: value_of(entries, DT_STRTAB),
        strsz: value_of(entries, DT_STRSZ),
        symtab: value_of(entries, DT_SYMTAB),
        rela: value_of(entries, DT_RELA),
        relasz: value_of(entries, DT_RELASZ),
        jmprel: value_of(entries, DT_JMPREL),
        pltrelsz: value_of(entries, DT_PLTRELSZ),
    }
}

#[tactic(auto, unfolding(crate::specs::Directory::value_of))]
fn value_of(entries: &[Entry], tag: u64) -> Option<u64>
    ensures { result ≡ value_of tag entries.now }
{
    entries.iter().find(|e| e.tag == tag).map(|e| e.value)
}

// Rule 20: the first entry of a wrong value or without its partner.
pub(crate) fn first_misfit(directory: &Directory, entries: &[Entry]) -> Option<u64>
    ensures { result ≡ offset_of (find (is_misfit directory.now) entries.now) }
{
    entries
        .iter()
        .find(|e| is_misfit(directory, e))
        .map(|e| e.at)
}

#[tactic(auto, unfolding(crate::specs::Directory::is_misfit))]
fn is_misfit(directory: &Directory, entry: &Entry) -> bool
    ensures { result ≡ is_misfit directory.now entry.now }
{
    match entry.tag {
        DT_RELAENT => entry.value != Rela::SIZE,
        DT_PLTREL => entry.value != DT_RELA,
        DT_RELA => directory.relasz.is_none(),
        DT_RELASZ => directory.rela.is_none() || entry.value % Rela::SIZE != 0,
        DT_JMPREL => directory.pltrelsz.is_none(),
        DT_PLTRELSZ => directory.jmprel.is_none() || entry.value % Rela::SIZE != 0,
        _ => false,
    }
}

// Rule 21: a symbol table whose string table is not in the file part.
pub(crate) fn symbols_without_strings(
    segments: &[Segment],
    directory: &Directory,
    entries: &[Entry],
) -> Option<u64>
    requires { AreBounded (2 ^ 64) segments.now }
    ensures { result ≡ offset_of (find (lacks_strings segments.now directory.now) entries.now) }
{
    let has_strings = table_offset(segments, directory.strtab, directory.strsz).is_some();
    entries
        .iter()
        .find(|e| e.tag == DT_SYMTAB && !has_strings)
        .map(|e| e.at)
}

// Rule 22: a relocation table that is not in the file part.
pub(crate) fn first_unplaced(
    segments: &[Segment],
    directory: &Directory,
    entries: &[Entry],
) -> Option<u64>
    requires { AreBounded (2 ^ 64) segments.now }
    ensures { result ≡ offset_of (find (is_unplaced segments.now directory.now) entries.now) }
{
    let rela = table_offset(segments, directory.rela, directory.relasz).is_some();
    let jmprel = table_offset(segments, directory.jmprel, directory.pltrelsz).is_some();
    entries
        .iter()
        .find(|e| e.tag == DT_RELA && !rela || e.tag == DT_JMPREL && !jmprel)
        .map(|e| e.at)
}

// The file offset of a table, where its address and size stand and it is in the file part.
pub(crate) fn table_offset(
    segments: &[Segment],
    address: Option<u64>,
    size: Option<u64>,
) -> Option<u64>
    requires { AreBounded (2 ^ 64) segments.now }
    ensures { result ≡ table_offset segments.now address size }
{
    match (address, size) {
        (Some(address), Some(size)) => file_offset(segments, address, size),
        _ => None,
    }
}
