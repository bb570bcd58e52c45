ghost use Rattle.std.specs.Prelude.{◌≡◌, ◌↔◌, ◌<ℤ◌, pos, MatchOption, IsTrue};
ghost use Rattle.vw_domain.specs.Registers.{IsRegister, OffsetFits};
ghost use Rattle.vw_domain.specs.State.{IsFact, IsNarrow};
ghost use Rattle.vw_domain.specs.StateParts.{offset_of};
ghost use Rattle.vw_domain.specs.PartRanges.{AreFrameRanges, AreSlotParts, HasNoRow, IsInRange, IsNextRange, IsNextSlot, IsRowOf, IsSlot};

use crate::cells::Cell;
use crate::parts::Fact;
use crate::registers::Register;
use crate::state_parts::{Slot, StateParts};
use vw_lattice::Lattice;
use vw_stack::Offset;
use vw_values::Value;

const WHOLE: u64 = 0x1_0000_0000;

const FAR: i64 = 0x1_0000_0000;

const HALF: i64 = 0x8000_0000;

fn offset_fits(offset: Offset, value: Value) -> bool
    ensures { IsTrue result ↔ OffsetFits offset value }
{
    match offset {
        Offset::Unknown => true,
        Offset::Known(c) => {
            -HALF <= c && c <= HALF && (value == Value::Any || value.leq(&Value::Num))
        }
    }
}

fn is_register(register: Register) -> bool
    ensures { IsTrue result ↔ IsRegister register }
{
    register.value.is_in_range() && offset_fits(register.offset, register.value)
}

fn register_of(offset: Option<i64>, value: Value) -> Register
    ensures { result ≡ record { offset = offset_of offset; value = value } }
{
    let offset = match offset {
        None => Offset::Unknown,
        Some(c) => Offset::Known(c),
    };
    Register { offset, value }
}

// The row of the registers with these distances and values. None exactly where a list has not sixteen, or a register is
// not in its ranges.
pub(crate) fn row_of(offsets: &[Option<i64>], values: &[Value]) -> Option<[Cell; 17]>
    ensures { MatchOption result (HasNoRow offsets.now values.now) (IsRowOf offsets.now values.now) }
{
    if offsets.len() != 16 || values.len() != 16 {
        return None;
    }
    let unknown = Cell::of(Register {
        offset: Offset::Unknown,
        value: Value::Any,
    });
    let mut row = [unknown; 17];
    for i in 0..16 {
        let register = register_of(offsets[i], values[i]);
        if !is_register(register) {
            return None;
        }
        let cell = Cell::of(register);
        row[i] = cell;
    }
    Some(row)
}

fn is_fact(fact: Fact) -> bool
    ensures { IsTrue result ↔ IsFact fact }
{
    match fact {
        Fact::Unknown => true,
        Fact::Compare { w, k } => w == 64 || (w == 32 && k < WHOLE),
    }
}

fn is_next_range(end: i64, range: (i64, i64)) -> bool
    requires { end <ℤ pos 0 }
    ensures { IsTrue result ↔ IsNextRange end range }
{
    end + 1 < range.0 && range.0 <= range.1 && range.1 < 0
}

// Whether ranges are maximal, ascend, and lie below offset 0 and not below -2^32.
fn are_ranges(ranges: &[(i64, i64)]) -> bool
    ensures { IsTrue result ↔ AreFrameRanges ranges.now }
{
    let mut end = -FAR - 2;
    for range in ranges {
        if !is_next_range(end, *range) {
            return false;
        }
        end = range.1;
    }
    true
}

// Whether a value is one of 4 bytes, extended by zeros.
fn is_narrow(value: Value) -> bool
    ensures { IsTrue result ↔ IsNarrow value }
{
    match value {
        Value::Const(c) => c < WHOLE,
        Value::Below(k) => k <= WHOLE,
        _ => false,
    }
}

fn is_slot(slot: &Slot) -> bool
    ensures { IsTrue result ↔ IsSlot slot.now }
{
    (slot.size == 8 || (slot.size == 4 && is_narrow(slot.value)))
        && slot.value.is_in_range()
        && -FAR <= slot.offset
        && slot.offset <= FAR
}

fn is_next_slot(last: i64, slot: &Slot) -> bool
    ensures { IsTrue result ↔ IsNextSlot last slot.now }
{
    last < slot.offset && is_slot(slot)
}

// Whether each slot is one, and their offsets ascend.
fn are_slots(slots: &[Slot]) -> bool
    ensures { IsTrue result ↔ AreSlotParts slots.now }
{
    let mut last = -FAR - 1;
    for slot in slots {
        if !is_next_slot(last, slot) {
            return false;
        }
        last = slot.offset;
    }
    true
}

// Whether the depth, the fact, the ranges and the slots are those of a state.
pub(crate) fn are_in_range(parts: &StateParts) -> bool
    ensures { IsTrue result ↔ IsInRange parts.now }
{
    parts.probed <= WHOLE
        && is_fact(parts.fact)
        && are_ranges(parts.written.as_slice())
        && are_slots(parts.slots.as_slice())
}
