ghost use Rattle.std.specs.Prelude.{◌≡◌, ◌<◌, ◌&&◌, length};
ghost use Rattle.vw_names.specs.Spot.{number};
ghost use Rattle.vw_domain.specs.Refines.{refinement, IsComparison, is_compared, passes, left_value, may_pass, with_value_by, EachRegister, EachSlot};
ghost use Rattle.vw_domain.specs.Plain.{is_plain};
ghost use Rattle.vw_domain.specs.State.{AreSlots};
ghost use Rattle.vw_domain.specs.Changes.{refined_by};

use crate::cells::Cell;
use crate::edge_tags::{Tags, is_other, marked};
use vw_insn::Width;
use vw_lattice::MapOf;
use vw_names::{Classes, Spot};
use vw_values::{Bounds, Value, below, equal};

/// What a comparison with `k` told of a number's low bits of this width, 32 or 64.
#[derive(Clone, Copy, Debug, PartialEq, Eq)]
pub enum Comparison {
    /// They are below `k`.
    Below { width: Width, k: u64 },
    /// They are `k`.
    Equal { width: Width, k: u64 },
}

// What is left of a value; none where no number passes.
fn refinement(value: Value, comparison: Comparison, bounds: &Bounds) -> Option<Value>
    requires { IsComparison comparison }
    ensures { result ≡ refinement comparison bounds.now value }
{
    match comparison {
        Comparison::Below { width, k } => below(value, width, k, bounds),
        Comparison::Equal { width, k } => equal(value, width, k, bounds),
    }
}

// Whether a place is in the class of the flags.
pub(crate) fn is_compared(classes: &Classes, place: Spot) -> bool
    ensures { result ≡ is_compared classes.now (number place) }
{
    classes.same(Spot::Flags, place)
}

// The value in a place after a comparison, and whether any number passes.
fn refined_value(
    value: Value,
    is_compared: bool,
    comparison: Comparison,
    bounds: &Bounds,
) -> (Value, bool)
    requires { IsComparison comparison }
    ensures value { result.0 ≡ refined_by is_compared (refinement comparison bounds.now) value }
    ensures passes { result.1 ≡ passes is_compared (refinement comparison bounds.now value) }
{
    if !is_compared {
        return (value, true);
    }
    match refinement(value, comparison, bounds) {
        None => (value, false),
        Some(refined) => (refined, true),
    }
}

// Whether both hold.
pub(crate) fn both(a: bool, b: bool) -> bool
    ensures { result ≡ (a && b) }
{
    a && b
}

// What the edge leaves of the value in a place, and whether control may go along it, as far as that value tells.
fn left_value(
    value: Value,
    place: Spot,
    classes: &Classes,
    comparison: Comparison,
    tags: &Tags,
    bounds: &Bounds,
) -> (Value, bool)
    requires { IsComparison comparison }
    ensures value { result.0 ≡ left_value classes.now (refinement comparison bounds.now) tags.now
        (number place) value }
    ensures passes { result.1 ≡ may_pass classes.now (refinement comparison bounds.now) tags.now
        (number place) value }
{
    let is_in = is_compared(classes, place);
    let refined = refined_value(value, is_in, comparison, bounds);
    let other = is_other(value, tags, classes, place);
    let left = marked(refined.0, tags, classes, place);
    (left, both(refined.1, !other))
}

// Whether the edge changes nothing in a place.
fn is_plain(cell: &Cell, place: Spot, classes: &Classes) -> bool
    ensures { result ≡ is_plain classes.now (number place) cell.now.value }
{
    !cell.is_entry() && !is_compared(classes, place)
}

// Leaves that of the value of a register, and answers whether control may go along the edge as far as it tells.
fn edge_cell(
    cell: &mut Cell,
    place: Spot,
    classes: &Classes,
    comparison: Comparison,
    tags: &Tags,
    bounds: &Bounds,
) -> bool
    requires { IsComparison comparison }
    ensures value { cell.new ≡ with_value_by (left_value classes.now (refinement comparison bounds.now) tags.now)
        (number place) cell.old }
    ensures passes { result ≡ may_pass classes.now (refinement comparison bounds.now) tags.now
        (number place) cell.old.value }
{
    if is_plain(cell, place, classes) {
        return true;
    }
    let left = left_value(cell.value(), place, classes, comparison, tags, bounds);
    cell.set_value(left.0);
    left.1
}

// Refines the values of the registers in the class of the flags and marks those of entries, and answers whether control
// may go along the edge as far as they tell.
pub(crate) fn edge_row(
    row: &mut [Cell],
    classes: &Classes,
    comparison: Comparison,
    tags: &Tags,
    bounds: &Bounds,
) -> bool
    requires row { length row.old ≡ 17 }
    requires comparison { IsComparison comparison }
    ensures { EachRegister (left_value classes.now (refinement comparison bounds.now) tags.now)
        (may_pass classes.now (refinement comparison bounds.now) tags.now) row.old row.new result }
{
    let mut all = true;
    for i in 0..17u8 {
        let cell = &mut row[i as usize];
        let passes = edge_cell(cell, Spot::Reg(i), classes, comparison, tags, bounds);
        all = both(all, passes);
    }
    all
}

// The same for the slots.
pub(crate) fn edge_slots(
    slots: &mut MapOf<Value>,
    classes: &Classes,
    comparison: Comparison,
    tags: &Tags,
    bounds: &Bounds,
) -> bool
    requires slots { AreSlots slots.old }
    requires comparison { IsComparison comparison }
    ensures { EachSlot (left_value classes.now (refinement comparison bounds.now) tags.now)
        (may_pass classes.now (refinement comparison bounds.now) tags.now) slots.old slots.new result }
{
    let mut all = true;
    for i in 0..slots.len() {
        match slots.nth(i) {
            None => return all,
            Some((key, value)) => {
                let left = left_value(*value, Spot::Slot(key), classes, comparison, tags, bounds);
                slots.set_nth(i, left.0);
                all = both(all, left.1);
            }
        }
    }
    all
}
