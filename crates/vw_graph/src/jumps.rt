//! Tables of jumps by point, and which of them lead to points to which those before do not.

ghost use Rattle.std.specs.Prelude.{◌≡◌, ℕ, ◌<◌, ◌≤◌, length, Option, Some, IfOk, OnOk, IfSome, ◌⊎◌, ◌+◌, ◌^◌, MatchBool, slice_index_or};
ghost use Rattle.vw_state.specs.Context.{Context, IsSite};
ghost use Rattle.vw_graph.specs.search.Jumps.{slot_at, HasSlots, PutsSlot, AreMarked, LeadsBeyond, LeadsFurther, LeadsNoFurther, LeadsTo, AreNew};

use std::alloc::Global;
use std::collections::BTreeSet;
use vw_bits::OutOfMemory;
use vw_state::{JumpTable, Site};
use vw_switch::target;

/// The table of jumps of a point.
pub(crate) fn slot(slots: &[Option<JumpTable>], point: u32) -> Option<JumpTable>
    ensures { result ≡ slot_at slots.now point }
{
    match slots.get(point as usize) {
        Some(slot) => *slot,
        None => None,
    }
}

// Makes a slot for each point, where there are none.
fn make_room(
    alloc: Global,
    slots: &mut Vec<Option<JumpTable>>,
    points: u32,
) -> Result<(), OutOfMemory>
    requires { HasSlots points slots.old.items }
    ensures size { OnOk result (length slots.new.items ≡ points) }
    ensures same { OnOk result ((point : ℕ)
        → slot_at slots.new.items point ≡ slot_at slots.old.items point) }
    ensures err { HasSlots points slots.new.items }
{
    if slots.len() != 0 {
        return Ok(());
    }
    *slots = vec![in alloc; None; points as usize]?;
    Ok(())
}

/// Fills the slot of a point.
pub(crate) fn put(
    alloc: Global,
    slots: &mut Vec<Option<JumpTable>>,
    points: u32,
    point: u32,
    table: JumpTable,
) -> Result<(), OutOfMemory>
    requires point { point < points }
    requires slots { HasSlots points slots.old.items }
    ensures { OnOk result (PutsSlot points slots.old.items point table slots.new.items) }
{
    make_room(alloc, slots, points)?;
    slots[point as usize] = Some(table);
    Ok(())
}

// Marks a point, where there is one.
fn mark_point(marks: &mut Vec<u32>, mark: u32, to: Option<u32>)
    requires { IfSome to (λ point. point < length marks.old.items) }
    ensures size { length marks.new.items ≡ length marks.old.items }
    ensures here { IfSome to (λ point. slice_index_or marks.new.items point 0 ≡ mark) }
    ensures others { (other : ℕ) → (to ≡ Some other)
        ⊎ (slice_index_or marks.new.items other 0 ≡ slice_index_or marks.old.items other 0) }
{
    let Some(point) = to else {
        return;
    };
    marks[point as usize] = mark;
}

// Marks the points to which a table leads.
fn mark_targets(site: &Site, marks: &mut Vec<u32>, mark: u32, slot: Option<JumpTable>)
    requires { site.now.size ≤ length marks.old.items }
    ensures size { length marks.new.items ≡ length marks.old.items }
    ensures marks { (f : Context) → IsSite f site.now
        → AreMarked f slot mark marks.old.items marks.new.items }
{
    let Some(table) = slot else {
        return;
    };
    for i in 0..table.count {
        mark_point(
            marks,
            mark,
            target(site.image, table.base, i, site.entry, site.size),
        );
    }
}

// Whether a table leads to a point that has another mark.
fn leads_beyond(site: &Site, marks: &[u32], mark: u32, table: JumpTable) -> bool
    requires { site.now.size ≤ length marks.now }
    ensures { (f : Context) → IsSite f site.now
        → MatchBool result (LeadsBeyond f (Some table) mark marks.now)
        ((to : ℕ) → LeadsTo f (Some table) to → slice_index_or marks.now to 0 ≡ mark) }
{
    for i in 0..table.count {
        if let Some(to) = target(site.image, table.base, i, site.entry, site.size) {
            if marks[to as usize] != mark {
                return true;
            }
        }
    }
    false
}

// Whether a table leads to a point to which the one before does not. Marks the points to which that one leads.
fn leads_further(
    site: &Site,
    marks: &mut Vec<u32>,
    mark: u32,
    before: Option<JumpTable>,
    now: Option<JumpTable>,
) -> bool
    requires size { site.now.size ≤ length marks.old.items }
    requires unused { (point : ℕ) → slice_index_or marks.old.items point 0 < mark }
    ensures size { length marks.new.items ≡ length marks.old.items }
    ensures used { (point : ℕ) → slice_index_or marks.new.items point 0 ≤ mark }
    ensures leads { (f : Context) → IsSite f site.now
        → MatchBool result (LeadsFurther f before now) (LeadsNoFurther f before now) }
{
    let Some(table) = now else {
        return false;
    };
    mark_targets(site, marks, mark, before);
    leads_beyond(site, marks.as_slice(), mark, table)
}

// Puts a point among those whose table leads further than the one before, where it does.
fn look_further(
    site: &Site,
    before: &[Option<JumpTable>],
    now: &[Option<JumpTable>],
    point: u32,
    marks: &mut Vec<u32>,
    points: &mut BTreeSet<u32>,
) -> Result<(), OutOfMemory>
    requires point { point < site.now.size + 1 }
    requires short { site.now.size + 1 < 2 ^ 32 }
    requires size { site.now.size ≤ length marks.old.items }
    requires unused { (other : ℕ) → slice_index_or marks.old.items other 0 ≤ point }
    ensures size { length marks.new.items ≡ length marks.old.items }
    ensures used { (other : ℕ) → slice_index_or marks.new.items other 0 ≤ point + 1 }
    ensures new { OnOk result ((f : Context) → IsSite f site.now
        → AreNew f before.now now.now point points.old.keys
        → AreNew f before.now now.now (point + 1) points.new.keys) }
{
    if !leads_further(
        site,
        marks,
        point + 1,
        slot(before, point),
        slot(now, point),
    ) {
        return Ok(());
    }
    points.insert(point)?;
    Ok(())
}

/// The points whose table leads further than the one before.
pub(crate) fn new_points(
    alloc: Global,
    site: &Site,
    before: &[Option<JumpTable>],
    now: &[Option<JumpTable>],
) -> Result<BTreeSet<u32>, OutOfMemory>
    requires short { site.now.size + 1 < 2 ^ 32 }
    requires slots { HasSlots (site.now.size + 1) now.now }
    ensures { IfOk result (λ points. (f : Context) → IsSite f site.now
        → AreNew f before.now now.now (site.now.size + 1) points.keys) }
{
    let mut points = BTreeSet::new(alloc);
    if now.is_empty() {
        return Ok(points);
    }
    let mut marks = vec![in alloc; 0u32; site.size as usize]?;
    for point in 0..site.size + 1 {
        look_further(site, before, now, point, &mut marks, &mut points)?;
    }
    Ok(points)
}
