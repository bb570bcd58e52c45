ghost use Rattle.std.specs.Prelude.{◌≡◌, ◌+◌, ◌*◌, ◌≤◌, ◌^◌, ◌&&◌, true, not, map, length, option_map, None, IfOk, IfErr, IfSome, OnOk, is_some};
ghost use Rattle.std.specs.List.{find, flat_map};
ghost use Rattle.vw_bits.specs.Headers.{table, is_readable, is_executable};
ghost use Rattle.vw_bits.specs.Places.{in_file_part};
ghost use Rattle.vw_bits.specs.Rules.{lowest_broken, AllHold};
ghost use Rattle.vw_bits.specs.Bounds.{AreBounded};
ghost use Rattle.vw_layout.specs.Faults.{Names, Tells};
ghost use Rattle.vw_layout.specs.Functions.{symbol_offset};
ghost use Rattle.vw_layout.specs.Calls.{is_ordinary};
ghost use Rattle.vw_layout.specs.Tables.{agrees, first_disagreeing, first_of, pairs_of, in_read_part, in_data_part, place_of, word, is_based, address_in, is_plain, number_in, is_length, is_pair, range_rule, is_empty_tag, is_tag, is_callable, is_pointer, is_table_entry, table_entry_at, table_rules, tables_of};
ghost use Rattle.vw_layout.specs.Spans.{span_at, entries_in, table_in, IsLow, AreLow, Ascend};

use crate::calls::{call_target, is_probe};
use crate::faults::refuse;
use crate::symbols::SymbolEntry;
use crate::{CallTarget, Function, ModuleError};
use bitflags::Flags;
use std::alloc::Global;
use vw_bits::{List, OutOfMemory, Rights, Segment, file_offset, is_among};
use vw_image::{Image, Word};

/// A table of code pointers of a module.
#[derive(Debug, Drop)]
pub struct TableInfo {
    /// Its address, counted from the load address.
    pub address: u64,
    /// Its entries in order, at most 65,536, of sixteen bytes each.
    pub entries: List<TableEntry>,
}

/// An entry of a table.
#[derive(Clone, Copy, Debug, PartialEq, Eq)]
pub struct TableEntry {
    /// Its tag: below 2^32 - 1, or 2^64 - 1 for an empty entry.
    pub tag: u64,
    /// Its pointer, which is not looked at in an empty entry.
    pub pointer: Word,
}

/// Where a table lies, as a pair of words names it.
#[derive(Clone, Copy, Debug)]
pub struct Span {
    /// The address of the pair.
    pub pair: u64,
    /// The address of the table.
    pub start: u64,
    /// Its number of entries.
    pub count: u32,
}

/// The tables that were read, all where no entry is wrong, and the address of the first wrong one.
#[derive(Drop)]
pub struct TablesScan {
    tables: List<TableInfo>,
    wrong: Option<u64>,
}

/// The entries of a table that were read, all where none is wrong, and the address of the first wrong one.
#[derive(Drop)]
pub struct TableScan {
    entries: List<TableEntry>,
    wrong: Option<u64>,
}

/// The pairs of a module: where they begin, and how many there are.
#[derive(Clone, Copy, Debug)]
pub struct Pairs {
    /// The address of the first pair.
    pub start: u64,
    /// How many there are.
    pub count: u64,
}

/// The size of a pair and of an entry of a table.
const PAIR_SIZE: u64 = 16;

/// The greatest size of the pairs of a module, in bytes.
const MAX_PAIRS_SIZE: u64 = 1024;

/// The greatest number of entries of a table.
const MAX_ENTRIES: u64 = 65_536;

/// The tag of an empty entry.
const EMPTY_TAG: u64 = 0xFFFF_FFFF_FFFF_FFFF;

/// The tags of other entries are below this.
const TAG_LIMIT: u64 = 0xFFFF_FFFF;

// The tables of a module, or the first broken rule of 32 to 35.
pub(crate) fn read_tables(
    alloc: Global,
    image: &Image,
    functions: &[Function],
    symbols: &[SymbolEntry],
) -> Result<List<TableInfo>, ModuleError>
    requires bounded { AreBounded (2 ^ 64) image.now.segments }
    requires ascend { Ascend functions.now }
    requires few { length functions.now ≤ 65536 }
    ensures ok { IfOk result (λ tables. tables ≡ tables_of image.now symbols.now) }
    ensures rules { OnOk result (AllHold (table_rules image.now functions.now symbols.now)) }
    ensures fault { IfErr result (Names (lowest_broken 32 (table_rules image.now functions.now symbols.now))) }
{
    refuse(32, first_disagreeing(symbols))?;
    let pairs = locate_pairs(image.segments(), symbols)?;
    refuse(33, place_of(image, first_wrong_pair(image, pairs)))?;
    let spans = read_spans(alloc, image, pairs).map_err(ModuleError::Memory)?;
    refuse(
        34,
        place_of(image, first_wrong_table(image, spans.as_slice())),
    )?;
    let scan = scan_tables(alloc, image, functions, spans.as_slice()).map_err(ModuleError::Memory)?;
    refuse(35, place_of(image, scan.wrong))?;
    Ok(scan.tables)
}

// Rule 32: the first symbol of the tables that does not agree with the first one.
fn first_disagreeing(symbols: &[SymbolEntry]) -> Option<u64>
    ensures { result ≡ symbol_offset (first_disagreeing symbols.now) }
{
    match symbols.first() {
        None => None,
        Some(first) => first_unlike(first, symbols),
    }
}

fn first_unlike(first: &SymbolEntry, symbols: &[SymbolEntry]) -> Option<u64>
    ensures { result ≡ symbol_offset (find (λ s. not (agrees first.now s)) symbols.now) }
{
    symbols
        .iter()
        .find(|s| !agrees(first, s))
        .map(|s| s.symbol.at)
}

fn agrees(first: &SymbolEntry, entry: &SymbolEntry) -> bool
    ensures { result ≡ agrees first.now entry.now }
{
    entry.symbol.value == first.symbol.value
        && entry.symbol.size == first.symbol.size
        && entry.symbol.size % PAIR_SIZE == 0
        && entry.symbol.size <= MAX_PAIRS_SIZE
}

// Rule 33, of the range: the pairs that the first symbol of the tables names.
fn locate_pairs(segments: &[Segment], symbols: &[SymbolEntry]) -> Result<Pairs, ModuleError>
    requires { AreBounded (2 ^ 64) segments.now }
    ensures pairs { IfOk result (λ pairs. pairs_of symbols.now ≡ table pairs.start 16 pairs.count) }
    ensures below { IfOk result (λ pairs. pairs.start + 16 * pairs.count ≤ 2 ^ 32) }
    ensures holds { OnOk result (range_rule segments.now (first_of symbols.now) ≡ None) }
    ensures broken { IfErr result (Tells 33 (range_rule segments.now (first_of symbols.now))) }
{
    match symbols.first() {
        None => Ok(Pairs { start: 0, count: 0 }),
        Some(first) => {
            if is_read(segments, first.symbol.value, first.symbol.size) {
                Ok(Pairs {
                    start: first.symbol.value,
                    count: first.symbol.size / PAIR_SIZE,
                })
            } else {
                Err(ModuleError::Malformed {
                    rule: 33,
                    offset: first.symbol.at,
                })
            }
        }
    }
}

// Whether a range is in the file part of a segment that is read.
fn is_read(segments: &[Segment], address: u64, size: u64) -> bool
    ensures { result ≡ in_read_part segments.now address size }
{
    segments.iter().any(|s| holds_read(s, address, size))
}

fn holds_read(segment: &Segment, address: u64, size: u64) -> bool
    ensures { result ≡ (is_readable segment.now && in_file_part address size segment.now) }
{
    segment.rights.contains(Rights::R) && is_among(segment.vaddr, segment.filesz, address, size)
}

// Whether a range is in the file part of a segment that is read and not executed.
fn is_data(segments: &[Segment], address: u64, size: u64) -> bool
    ensures { result ≡ in_data_part segments.now address size }
{
    segments.iter().any(|s| holds_data(s, address, size))
}

fn holds_data(segment: &Segment, address: u64, size: u64) -> bool
    ensures { result ≡ (is_readable segment.now && not (is_executable segment.now) && in_file_part address size segment.now) }
{
    segment.rights.contains(Rights::R)
        && !segment.rights.contains(Rights::X)
        && is_among(segment.vaddr, segment.filesz, address, size)
}

// The file offset of the pair or entry at an address.
fn place_of(image: &Image, address: Option<u64>) -> Option<u64>
    requires { AreBounded (2 ^ 64) image.now.segments }
    ensures { result ≡ place_of image.now.segments address }
{
    match address {
        None => None,
        Some(address) => Some(file_offset(image.segments(), address, PAIR_SIZE).unwrap_or(0)),
    }
}

// Rule 33: the first pair whose words are not an address and a length.
fn first_wrong_pair(image: &Image, pairs: Pairs) -> Option<u64>
    requires { pairs.start + 16 * pairs.count ≤ 2 ^ 32 }
    ensures { result ≡ find (λ pair. not (is_pair image.now pair)) (table pairs.start 16 pairs.count) }
{
    for index in 0..pairs.count {
        let pair = pairs.start + PAIR_SIZE * index;
        if !is_pair(image, pair) {
            return Some(pair);
        }
    }
    None
}

fn is_pair(image: &Image, pair: u64) -> bool
    requires { pair ≤ 2 ^ 32 }
    ensures { result ≡ is_pair image.now pair }
{
    is_based(word(image, pair)) && is_length(word(image, pair + 8))
}

// The eight bytes at an address after relocation.
fn word(image: &Image, address: u64) -> Word
    ensures { result ≡ word image.now address }
{
    image.word_at(address, 8)
}

fn is_based(word: Word) -> bool
    ensures { result ≡ is_based word }
{
    match word {
        Word::Based(_) => true,
        Word::Plain(_) | Word::Bound(_) | Word::Mixed | Word::Outside => false,
    }
}

fn is_length(word: Word) -> bool
    ensures { result ≡ is_plain is_length word }
{
    match word {
        Word::Plain(number) => number <= MAX_ENTRIES,
        Word::Based(_) | Word::Bound(_) | Word::Mixed | Word::Outside => false,
    }
}

fn address_in(word: Word) -> u64
    ensures { result ≡ address_in word }
{
    match word {
        Word::Based(address) => address,
        Word::Plain(_) | Word::Bound(_) | Word::Mixed | Word::Outside => 0,
    }
}

fn number_in(word: Word) -> u64
    ensures { result ≡ number_in word }
{
    match word {
        Word::Plain(number) => number,
        Word::Based(_) | Word::Bound(_) | Word::Mixed | Word::Outside => 0,
    }
}

// The tables that the pairs name.
fn read_spans(alloc: Global, image: &Image, pairs: Pairs) -> Result<Vec<Span>, OutOfMemory>
    requires below { pairs.start + 16 * pairs.count ≤ 2 ^ 32 }
    requires pairs { find (λ pair. not (is_pair image.now pair)) (table pairs.start 16 pairs.count) ≡ None }
    ensures { IfOk result (λ spans. spans.items ≡ map (span_at image.now) (table pairs.start 16 pairs.count)) }
{
    let mut spans = Vec::new(alloc);
    for index in 0..pairs.count {
        spans.push(span_at(image, pairs.start + PAIR_SIZE * index))?;
    }
    Ok(spans)
}

fn span_at(image: &Image, pair: u64) -> Span
    requires below { pair ≤ 2 ^ 32 }
    requires pair { is_pair image.now pair ≡ true }
    ensures { result ≡ span_at image.now pair }
{
    Span {
        pair,
        start: address_in(word(image, pair)),
        count: number_in(word(image, pair + 8)) as u32,
    }
}

// Rule 34: the pair of the first table that is not in the data of the file.
fn first_wrong_table(image: &Image, spans: &[Span]) -> Option<u64>
    ensures { result ≡ option_map (λ s. s.pair) (find (λ s. not (in_data_part image.now.segments s.start (16 * s.count))) spans.now) }
{
    let segments = image.segments();
    spans
        .iter()
        .find(|s| !is_data(segments, s.start, PAIR_SIZE * s.count as u64))
        .map(|s| s.pair)
}

// The tables with their entries, and rule 35: the address of the first entry that is wrong, by table and then by
// entry.
fn scan_tables(
    alloc: Global,
    image: &Image,
    functions: &[Function],
    spans: &[Span],
) -> Result<TablesScan, OutOfMemory>
    requires ascend { Ascend functions.now }
    requires few { length functions.now ≤ 65536 }
    requires low { AreLow spans.now }
    ensures wrong { IfOk result (λ scan. scan.wrong ≡ find (λ entry. not (is_table_entry image.now functions.now entry)) (flat_map entries_in spans.now)) }
    ensures tables { IfOk result (λ scan. scan.wrong ≡ None → scan.tables ≡ map (table_in image.now) spans.now) }
{
    let mut tables = List::new(alloc);
    for span in spans {
        let scan = scan_table(alloc, image, functions, span)?;
        match scan.wrong {
            Some(entry) => {
                return Ok(TablesScan {
                    tables,
                    wrong: Some(entry),
                });
            }
            None => tables.push(TableInfo {
                address: span.start,
                entries: scan.entries,
            })?,
        }
    }
    Ok(TablesScan {
        tables,
        wrong: None,
    })
}

fn scan_table(
    alloc: Global,
    image: &Image,
    functions: &[Function],
    span: &Span,
) -> Result<TableScan, OutOfMemory>
    requires ascend { Ascend functions.now }
    requires few { length functions.now ≤ 65536 }
    requires low { IsLow span.now }
    ensures wrong { IfOk result (λ scan. scan.wrong ≡ find (λ entry. not (is_table_entry image.now functions.now entry)) (entries_in span.now)) }
    ensures entries { IfOk result (λ scan. scan.wrong ≡ None → scan.entries ≡ map (table_entry_at image.now) (entries_in span.now)) }
{
    let mut entries = List::new(alloc);
    for index in 0..span.count {
        let address = span.start + PAIR_SIZE * index as u64;
        match entry_at(image, functions, address) {
            Some(entry) => entries.push(entry)?,
            None => {
                return Ok(TableScan {
                    entries,
                    wrong: Some(address),
                });
            }
        }
    }
    Ok(TableScan {
        entries,
        wrong: None,
    })
}

// The entry at an address, of which each word is looked at once; `None` where it breaks rule 35.
#[tactic(auto, unfolding(crate::specs::Tables::table_entry_at))]
fn entry_at(image: &Image, functions: &[Function], entry: u64) -> Option<TableEntry>
    requires ascend { Ascend functions.now }
    requires few { length functions.now ≤ 65536 }
    requires below { entry ≤ 2 ^ 32 }
    ensures value { IfSome result (λ found. found ≡ table_entry_at image.now entry) }
    ensures test { is_some result ≡ is_table_entry image.now functions.now entry }
{
    let tag = word(image, entry);
    let pointer = word(image, entry + 8);
    if is_tag(tag) && (is_empty(tag) || is_pointer(image, functions, pointer)) {
        Some(TableEntry {
            tag: number_in(tag),
            pointer,
        })
    } else {
        None
    }
}

fn is_tag(word: Word) -> bool
    ensures { result ≡ is_plain is_tag word }
{
    match word {
        Word::Plain(number) => number < TAG_LIMIT || number == EMPTY_TAG,
        Word::Based(_) | Word::Bound(_) | Word::Mixed | Word::Outside => false,
    }
}

fn is_empty(word: Word) -> bool
    ensures { result ≡ is_plain is_empty_tag word }
{
    match word {
        Word::Plain(number) => number == EMPTY_TAG,
        Word::Based(_) | Word::Bound(_) | Word::Mixed | Word::Outside => false,
    }
}

fn is_pointer(image: &Image, functions: &[Function], pointer: Word) -> bool
    requires ascend { Ascend functions.now }
    requires few { length functions.now ≤ 65536 }
    ensures { result ≡ is_pointer image.now functions.now pointer }
{
    match pointer {
        Word::Based(address) => is_callable(image, functions, address),
        Word::Bound(number) => !is_probe(image.imports(), number),
        Word::Plain(_) | Word::Mixed | Word::Outside => false,
    }
}

fn is_callable(image: &Image, functions: &[Function], address: u64) -> bool
    requires ascend { Ascend functions.now }
    requires few { length functions.now ≤ 65536 }
    ensures { result ≡ is_callable image.now functions.now address }
{
    match call_target(image, functions, address) {
        Some(target) => is_ordinary(target),
        None => false,
    }
}

fn is_ordinary(target: CallTarget) -> bool
    ensures { result ≡ is_ordinary target }
{
    match target {
        CallTarget::Function(_) | CallTarget::Stub(_) => true,
        CallTarget::Probe => false,
    }
}
