ghost use Rattle.std.specs.Prelude.{◌≡◌, ◌⊎◌, ℕ, map, IfOk};
ghost use Rattle.std.specs.List.{All};
ghost use Rattle.vw_locals.specs.Ranges.{IsRanges};
ghost use Rattle.vw_domain.specs.State.{IsInFrame, wide_key, narrow_key};
ghost use Rattle.vw_domain.specs.StateParts.{HasParts, HasSize, AreOffsets, AreValues, IsPlaceOf, ArePlacesOf, AreClassesOf, entry_of, offset_of};

use crate::cells::Cell;
use crate::parts::{Fact, Parts};
use crate::registers::{offset_at, value_at};
use crate::state::State;
use std::alloc::Global;
use vw_bits::{List, OutOfMemory};
use vw_lattice::MapOf;
use vw_locals::Written;
use vw_names::Spot;
use vw_stack::Offset;
use vw_values::Value;

/// A slot of the frame.
#[derive(Clone, Copy, PartialEq, Eq)]
pub struct Slot {
    /// Its offset from the value that rsp had at the function's entry, in bytes.
    pub offset: i64,
    /// Its size in bytes, 4 or 8.
    pub size: u8,
    /// Its value; of 4 bytes extended by zeros.
    pub value: Value,
}

/// The parts of a state, as lists.
#[derive(Drop)]
pub struct StateParts {
    /// Of each of the sixteen registers, by number, how far it is from the value that rsp had at the function's
    /// entry, in bytes, where that is known.
    pub offsets: List<Option<i64>>,
    /// The values of the sixteen registers, by number.
    pub values: List<Value>,
    /// How deep the stack was probed, in bytes.
    pub probed: u64,
    /// The maximal ranges of the bytes of the frame that were written, ascending, each with its first and its last
    /// offset.
    pub written: List<(i64, i64)>,
    /// The slots, in the order of their offsets.
    pub slots: List<Slot>,
    /// The classes of two places or more with equal values, each with its places in order, in the order of their
    /// first places.
    pub classes: List<List<Spot>>,
    /// What the flags tell.
    pub fact: Fact,
}

fn offset_of(offset: Offset) -> Option<i64>
    ensures { offset_of result ≡ offset }
{
    match offset {
        Offset::Unknown => None,
        Offset::Known(c) => Some(c),
    }
}

// The distances of registers 0 to 15.
fn offsets_of(alloc: Global, row: &[Cell; 17]) -> Result<List<Option<i64>>, OutOfMemory>
    ensures { IfOk result (AreOffsets 16 row.now) }
{
    let mut offsets = List::new(alloc);
    for i in 0..16u8 {
        offsets.push(offset_of(offset_at(row, i)))?;
    }
    Ok(offsets)
}

// The values of registers 0 to 15.
fn values_of(alloc: Global, row: &[Cell; 17]) -> Result<List<Value>, OutOfMemory>
    ensures { IfOk result (AreValues 16 row.now) }
{
    let mut values = List::new(alloc);
    for i in 0..16u8 {
        values.push(value_at(row, i))?;
    }
    Ok(values)
}

// The ranges of the written bytes.
fn ranges_of(alloc: Global, written: &Written) -> Result<List<(i64, i64)>, OutOfMemory>
    requires ranges { IsRanges written.now }
    requires frame { IsInFrame written.now }
    ensures { IfOk result (λ ranges. ranges ≡ written.now) }
{
    let mut ranges = List::new(alloc);
    for i in 0..usize::MAX {
        match written.range(i) {
            None => return Ok(ranges),
            Some(range) => ranges.push(range)?,
        }
    }
    Ok(ranges)
}

// The offset of the slot with a key.
fn offset_of_key(key: i64) -> i64
    ensures { (key ≡ wide_key result) ⊎ (key ≡ narrow_key result) }
{
    key.div_euclid(2)
}

// The slot with a key and a value.
fn slot_of(key: i64, value: Value) -> Slot
    ensures entry { entry_of result ≡ (key, value) }
    ensures size { HasSize result }
{
    let offset = offset_of_key(key);
    let size = if key.rem_euclid(2) == 1 { 4 } else { 8 };
    Slot {
        offset,
        size,
        value,
    }
}

// The slots, in the order of their offsets.
fn slots_of(alloc: Global, slots: &MapOf<Value>) -> Result<List<Slot>, OutOfMemory>
    ensures entries { IfOk result (λ list. map entry_of list ≡ slots.now) }
    ensures sizes { IfOk result (λ list. All HasSize list) }
{
    let mut list = List::new(alloc);
    for i in 0..slots.len() {
        match slots.nth(i) {
            None => return Ok(list),
            Some((key, value)) => list.push(slot_of(key, *value))?,
        }
    }
    Ok(list)
}

// The place that the classes name so: a slot by its key.
fn place_of(name: Spot) -> Spot
    ensures { IsPlaceOf name result }
{
    match name {
        Spot::Reg(register) => Spot::Reg(register),
        Spot::Flags => Spot::Flags,
        Spot::Slot(key) => Spot::Slot(offset_of_key(key)),
    }
}

// The places of a class.
fn places_of(alloc: Global, names: &[Spot]) -> Result<List<Spot>, OutOfMemory>
    ensures { IfOk result (ArePlacesOf names.now) }
{
    let mut places = List::new(alloc);
    for name in names {
        places.push(place_of(*name))?;
    }
    Ok(places)
}

// The classes by their places.
fn classes_of(alloc: Global, names: &[List<Spot>]) -> Result<List<List<Spot>>, OutOfMemory>
    ensures { IfOk result (AreClassesOf names.now) }
{
    let mut classes = List::new(alloc);
    for group in names {
        let places = places_of(alloc, group.as_slice())?;
        classes.push(places)?;
    }
    Ok(classes)
}

impl State {
    /// The parts of a state. Of register 16, which holds a number within one instruction, the distance and the value are
    /// left out.
    pub fn parts(&self) -> Result<StateParts, OutOfMemory>
        ensures { IfOk result (HasParts self.now) }
    {
        let alloc = *Box::allocator(&self.parts);
        let parts: &Parts = &self.parts;
        let offsets = offsets_of(alloc, &parts.registers)?;
        let values = values_of(alloc, &parts.registers)?;
        let written = ranges_of(alloc, &parts.written)?;
        let slots = slots_of(alloc, &parts.slots)?;
        let names = parts.classes.groups()?;
        let classes = classes_of(alloc, names.as_slice())?;
        Ok(StateParts {
            offsets,
            values,
            probed: parts.probed,
            written,
            slots,
            classes,
            fact: parts.fact,
        })
    }
}
