ghost use Rattle.std.specs.Prelude.{◌≡◌, ◌+◌, ◌<◌, ◌≤◌, ◌&&◌, false, length, slice_index_or, IfOk};
ghost use Rattle.std.specs.Bool.{OnTrue};
ghost use Rattle.std.specs.List.{find};
ghost use Rattle.vw_dynamic.specs.Entries.{entry_at, ended_entries, is_forbidden, is_single, first_repeated, offset_of, entry_list};

use std::alloc::Global;
use vw_bits::{Dyn, OutOfMemory};

/// An entry of the dynamic section.
#[derive(Clone, Copy, Debug)]
pub struct Entry {
    /// Its file offset.
    pub at: u64,
    /// `d_tag`.
    pub tag: u64,
    /// `d_un`: an address, a size or a number.
    pub value: u64,
}

const DT_NULL: u64 = 0;

const DT_INIT: u64 = 12;

const DT_FINI: u64 = 13;

const DT_REL: u64 = 17;

const DT_INIT_ARRAYSZ: u64 = 27;

const DT_FINI_ARRAYSZ: u64 = 28;

const DT_RELR: u64 = 36;

// The entries before the first DT_NULL among `size` bytes from `start` on, or `None` where there is no DT_NULL.
pub(crate) fn read_entries(
    alloc: Global,
    bytes: &[u8],
    start: u64,
    size: u64,
) -> Result<Option<Vec<Entry>>, OutOfMemory>
    requires { start + size ≤ length bytes.now }
    ensures { IfOk result (λ entries. entry_list entries ≡ ended_entries bytes.now start size) }
{
    let mut entries = Vec::new(alloc);
    for index in 0..size / Dyn::SIZE {
        let entry = entry_at(bytes, start + Dyn::SIZE * index);
        if entry.tag == DT_NULL {
            return Ok(Some(entries));
        }
        entries.push(entry)?;
    }
    Ok(None)
}

#[tactic(auto, unfolding(crate::specs::Entries::entry_at))]
fn entry_at(bytes: &[u8], at: u64) -> Entry
    requires { at + 16 ≤ length bytes.now }
    ensures { result ≡ entry_at bytes.now at }
{
    let entry = Dyn::read(bytes, at);
    Entry {
        at,
        tag: entry.d_tag,
        value: entry.d_un,
    }
}

// Rule 18: no initialisers, no finalisers, no relocations without addends, none of the compact form.
pub(crate) fn first_forbidden(entries: &[Entry]) -> Option<u64>
    ensures { result ≡ offset_of (find is_forbidden entries.now) }
{
    entries.iter().find(|e| is_forbidden(e)).map(|e| e.at)
}

fn is_forbidden(entry: &Entry) -> bool
    ensures { result ≡ is_forbidden entry.now }
{
    match entry.tag {
        DT_INIT | DT_FINI | DT_REL | DT_RELR => true,
        DT_INIT_ARRAYSZ | DT_FINI_ARRAYSZ => entry.value != 0,
        _ => false,
    }
}

// Rule 19: the first entry of a tag that stands once, behind another of that tag.
pub(crate) fn first_repeated(entries: &[Entry]) -> Option<u64>
    ensures { result ≡ offset_of (first_repeated entries.now) }
{
    let mut seen = [false; 25];
    for entry in entries {
        if is_repeated(&seen, entry.tag) {
            return Some(entry.at);
        }
        seen[entry.tag.min(24) as usize] = true;
    }
    None
}

// Whether a tag may stand only once, and has been seen.
fn is_repeated(seen: &[bool], tag: u64) -> bool
    requires { length seen.now ≡ 25 }
    ensures { result ≡ (is_single tag && slice_index_or seen.now tag false) }
{
    is_single(tag) && seen[tag as usize]
}

// Whether a tag may stand only once. All of these are below 24.
fn is_single(tag: u64) -> bool
    ensures single { result ≡ is_single tag }
    ensures below { OnTrue result (tag < 24) }
{
    matches!(tag, 2 | 5..=10 | 20 | 23)
}
