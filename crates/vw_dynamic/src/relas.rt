ghost use Rattle.std.specs.Prelude.{◌≡◌, ◌+◌, ◌*◌, ◌-◌, ◌/◌, ◌≤◌, ◌^◌, ◌==◌, ◌++◌, ◌||◌, not, length, map, filter, option_copied, IfOk, OnOk};
ghost use Rattle.std.specs.List.{find, list_any};
ghost use Rattle.vw_bits.specs.Headers.{table};
ghost use Rattle.vw_bits.specs.Bounds.{AreBounded};
ghost use Rattle.vw_dynamic.specs.Directory.{table_offset, items_at};
ghost use Rattle.vw_dynamic.specs.Relas.{rela_at, relas_of, is_known, is_data, is_misplaced, share_byte, shares, first_overlap, rela_offset};
ghost use Rattle.std.specs.BTreeMap.{get};
ghost use Rattle.std.specs.Ordering.{nat_cmp};

use crate::directory::{Directory, table_offset};
use bitflags::Flags;
use std::alloc::Global;
use std::collections::BTreeMap;
use vw_bits::{OutOfMemory, Rela, Rights, Segment, is_among};

/// A relocation with an addend.
#[derive(Clone, Copy, Debug)]
pub struct RelaEntry {
    /// Its file offset.
    pub at: u64,
    /// `r_offset`: the address that it changes.
    pub place: u64,
    /// The symbol's index, ELF64_R_SYM of `r_info`.
    pub symbol: u32,
    /// The type, ELF64_R_TYPE of `r_info`.
    pub kind: u32,
    /// `r_addend`, as a word.
    pub addend: u64,
}

pub(crate) const R_NONE: u32 = 0;

pub(crate) const R_64: u32 = 1;

pub(crate) const R_GLOB_DAT: u32 = 6;

pub(crate) const R_JUMP_SLOT: u32 = 7;

pub(crate) const R_RELATIVE: u32 = 8;

/// A relocation table in the file.
#[derive(Clone, Copy, Debug)]
pub struct Table {
    /// Where its first entry begins.
    pub offset: u64,
    /// How many entries there are.
    pub count: u64,
}

// The relocations of DT_RELA, and then those of DT_JMPREL that do not begin where one of DT_RELA begins.
pub(crate) fn read_relas(
    alloc: Global,
    bytes: &[u8],
    segments: &[Segment],
    directory: &Directory,
) -> Result<Vec<RelaEntry>, OutOfMemory>
    requires inside { AreBounded (length bytes.now) segments.now }
    requires small { AreBounded (2 ^ 64) segments.now }
    ensures { IfOk result (λ relas. relas.items ≡ relas_of bytes.now segments.now directory.now) }
{
    let first = table_at(bytes, segments, directory.rela, directory.relasz);
    let second = table_at(bytes, segments, directory.jmprel, directory.pltrelsz);
    let mut relas = read_table(alloc, bytes, first)?;
    append_others(bytes, first, second, &mut relas)?;
    Ok(relas)
}

fn table_at(bytes: &[u8], segments: &[Segment], address: Option<u64>, size: Option<u64>) -> Table
    requires inside { AreBounded (length bytes.now) segments.now }
    requires small { AreBounded (2 ^ 64) segments.now }
    ensures items { items_at (table_offset segments.now address size) size ≡ table result.offset 24 result.count }
    ensures inside { result.offset + 24 * result.count ≤ length bytes.now }
{
    match table_offset(segments, address, size) {
        Some(offset) => Table {
            offset,
            count: size.unwrap_or(0) / Rela::SIZE,
        },
        None => Table {
            offset: 0,
            count: 0,
        },
    }
}

fn read_table(alloc: Global, bytes: &[u8], first: Table) -> Result<Vec<RelaEntry>, OutOfMemory>
    requires { first.offset + 24 * first.count ≤ length bytes.now }
    ensures { IfOk result (λ relas. relas.items ≡ map (rela_at bytes.now) (table first.offset 24 first.count)) }
{
    let mut relas = Vec::new(alloc);
    for index in 0..first.count {
        relas.push(rela_at(bytes, first.offset + Rela::SIZE * index))?;
    }
    Ok(relas)
}

// Appends the entries of the second table that do not begin where one of the first begins.
fn append_others(
    bytes: &[u8],
    first: Table,
    second: Table,
    relas: &mut Vec<RelaEntry>,
) -> Result<(), OutOfMemory>
    requires { second.offset + 24 * second.count ≤ length bytes.now }
    ensures { OnOk result (relas.new.items
        ≡ relas.old.items ++ map (rela_at bytes.now) (filter (λ at. not (list_any (λ other. other == at) (table first.offset 24 first.count))) (table second.offset 24 second.count))) }
{
    for index in 0..second.count {
        let at = second.offset + Rela::SIZE * index;
        if !begins_entry(first, at) {
            relas.push(rela_at(bytes, at))?;
        }
    }
    Ok(())
}

// Whether an entry of the table begins at a file offset.
fn begins_entry(first: Table, at: u64) -> bool
    ensures { result ≡ list_any (λ other. other == at) (table first.offset 24 first.count) }
{
    if at < first.offset {
        return false;
    }
    let distance = at - first.offset;
    distance % Rela::SIZE == 0 && distance / Rela::SIZE < first.count
}

#[tactic(auto, unfolding(crate::specs::Relas::rela_at))]
fn rela_at(bytes: &[u8], at: u64) -> RelaEntry
    requires { at + 24 ≤ length bytes.now }
    ensures { result ≡ rela_at bytes.now at }
{
    let entry = Rela::read(bytes, at);
    RelaEntry {
        at,
        place: entry.r_offset,
        symbol: (entry.r_info / 0x1_0000_0000) as u32,
        kind: (entry.r_info % 0x1_0000_0000) as u32,
        addend: entry.r_addend,
    }
}

// Rule 23: the first relocation of another type.
pub(crate) fn first_unknown(relas: &[RelaEntry]) -> Option<u64>
    ensures { result ≡ rela_offset (find (λ r. not (is_known r)) relas.now) }
{
    relas.iter().find(|r| !is_known(r)).map(|r| r.at)
}

fn is_known(rela: &RelaEntry) -> bool
    ensures { result ≡ is_known rela.now }
{
    matches!(
        rela.kind,
        R_NONE | R_64 | R_GLOB_DAT | R_JUMP_SLOT | R_RELATIVE
    )
}

// Rule 24: the first relocation that is not of eight bytes of data.
pub(crate) fn first_misplaced(segments: &[Segment], relas: &[RelaEntry]) -> Option<u64>
    ensures { result ≡ rela_offset (find (is_misplaced segments.now) relas.now) }
{
    relas
        .iter()
        .find(|r| is_misplaced(segments, r))
        .map(|r| r.at)
}

fn is_misplaced(segments: &[Segment], rela: &RelaEntry) -> bool
    ensures { result ≡ is_misplaced segments.now rela.now }
{
    rela.kind != R_NONE && !holds_data(segments, rela.place)
}

fn holds_data(segments: &[Segment], place: u64) -> bool
    ensures { result ≡ list_any (λ s. is_data s place) segments.now }
{
    segments.iter().any(|s| is_data(s, place))
}

// Whether the eight bytes at an address are in the memory of a segment that is not executed.
fn is_data(segment: &Segment, address: u64) -> bool
    ensures { result ≡ is_data segment.now address }
{
    is_among(segment.vaddr, segment.memsz, address, 8) && !segment.rights.contains(Rights::X)
}

// Rule 25: the first relocation that shares a byte with one before it. Places that share no byte begin in
// different words of eight bytes, so each is kept under its word's number, and one that shares a byte with
// it begins in the same word or in a neighbour.
pub(crate) fn first_overlap(alloc: Global, relas: &[RelaEntry]) -> Result<Option<u64>, OutOfMemory>
    ensures { IfOk result (λ found. found ≡ rela_offset (first_overlap relas.now)) }
{
    let mut places = BTreeMap::new(alloc);
    for rela in relas {
        if rela.kind != R_NONE {
            if overlaps(&places, rela.place) {
                return Ok(Some(rela.at));
            }
            places.insert(rela.place / 8, rela.place)?;
        }
    }
    Ok(None)
}

// Whether one of the places, each kept under its word's number, shares a byte with this one.
fn overlaps(places: &BTreeMap<u64, u64>, place: u64) -> bool
    ensures { result ≡ (shares (get nat_cmp places.now (place / 8 - 1)) place || shares (get nat_cmp places.now (place / 8)) place || shares (get nat_cmp places.now (place / 8 + 1)) place) }
{
    let word = place / 8;
    shares(places.get(&word.saturating_sub(1)), place)
        || shares(places.get(&word), place)
        || shares(places.get(&(word + 1)), place)
}

fn shares(other: Option<&u64>, place: u64) -> bool
    ensures { result ≡ shares (option_copied other.entry) place }
{
    match other {
        Some(other) => share_byte(*other, place),
        None => false,
    }
}

fn share_byte(a: u64, b: u64) -> bool
    ensures { result ≡ share_byte a b }
{
    if a <= b { b - a < 8 } else { a - b < 8 }
}
