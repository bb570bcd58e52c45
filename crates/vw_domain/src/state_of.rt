ghost use Rattle.std.specs.Prelude.{◌≡◌, ◌+◌, ◌<◌, length, map, IsTrue, IfOk, OnOk, MatchOption, MatchResult};
ghost use Rattle.std.specs.List.{All};
ghost use Rattle.vw_names.specs.Division.{IsDivision};
ghost use Rattle.vw_names.specs.Spot.{number};
ghost use Rattle.vw_domain.specs.State.{AreSlots};
ghost use Rattle.vw_domain.specs.StateParts.{entry_of};
ghost use Rattle.vw_domain.specs.PartRanges.{AreFrameRanges, AreNames, AreNamesOf, AreSlotParts, HasNoState, IsBare, IsNameOf, IsPointPlace, IsRefused, IsSlot, IsStateOf, Joins};

use crate::part_checks::{are_in_range, row_of};
use crate::parts::Parts;
use crate::reads::key_at;
use crate::state::State;
use crate::state_parts::{Slot, StateParts};
use std::alloc::Global;
use vw_bits::{List, OutOfMemory};
use vw_lattice::MapOf;
use vw_locals::Written;
use vw_names::{Classes, Spot, places_have_own_numbers};
use vw_values::Value;

/// Why no state was made of parts.
#[derive(Debug, Drop)]
pub enum PartsError {
    /// No state between two instructions has these parts.
    NotAState,
    /// Memory was refused.
    Memory(OutOfMemory),
}

impl From<OutOfMemory> for PartsError {
    ghost from_gives = { λ error e. e ≡ Memory error };

    ghost use Rattle.vw_domain.specs.declared.state_of.PartsError.TheVariants.{Memory};

    fn from(error: OutOfMemory) -> PartsError {
        PartsError::Memory(error)
    }
}

// The set of the bytes in these ranges.
fn written_of(alloc: Global, ranges: &[(i64, i64)]) -> Result<Written, OutOfMemory>
    requires { AreFrameRanges ranges.now }
    ensures { IfOk result (λ written. written ≡ ranges.now) }
{
    let mut written = Written::new(alloc);
    for range in ranges {
        written.add(range.0, range.1 + 1)?;
    }
    Ok(written)
}

// The key of a slot.
fn key_of(slot: &Slot) -> i64
    requires { IsSlot slot.now }
    ensures { result ≡ (entry_of slot.now).0 }
{
    let wide = slot.offset + slot.offset;
    if slot.size == 4 { wide + 1 } else { wide }
}

// The map of these slots.
fn slots_from(alloc: Global, slots: &[Slot]) -> Result<MapOf<Value>, OutOfMemory>
    requires { AreSlotParts slots.now }
    ensures { IfOk result (λ entries. entries ≡ map entry_of slots.now) }
{
    let mut entries = MapOf::new(alloc);
    for slot in slots {
        entries.put(key_of(slot), slot.value)?;
    }
    Ok(entries)
}

// The parts of a state but for its classes, in which each place is alone. None exactly where no state has them.
fn bare_parts(alloc: Global, parts: &StateParts) -> Result<Option<Parts>, OutOfMemory>
    ensures { IfOk result (λ bare. MatchOption bare (HasNoState parts.now) (IsBare parts.now)) }
{
    if !are_in_range(parts) {
        return Ok(None);
    }
    match row_of(parts.offsets.as_slice(), parts.values.as_slice()) {
        None => Ok(None),
        Some(registers) => {
            let written = written_of(alloc, parts.written.as_slice())?;
            let slots = slots_from(alloc, parts.slots.as_slice())?;
            Ok(Some(Parts {
                registers,
                probed: parts.probed,
                written,
                slots,
                classes: Classes::new(alloc),
                fact: parts.fact,
            }))
        }
    }
}

const FAR: i64 = 0x1_0000_0000;

// A place as the classes name it. None exactly where it is neither a register of the processor, nor the flags, nor a
// slot that is there.
fn name_of(slots: &MapOf<Value>, place: Spot) -> Option<Spot>
    requires { AreSlots slots.now }
    ensures { MatchOption result (IsPointPlace slots.now place → ⊥) (IsNameOf slots.now place) }
{
    match place {
        Spot::Reg(register) => {
            if register < 16 {
                Some(Spot::Reg(register))
            } else {
                None
            }
        }
        Spot::Flags => Some(Spot::Flags),
        Spot::Slot(offset) => {
            if offset < -FAR || FAR < offset {
                return None;
            }
            let key = key_at(slots, offset);
            match slots.get(key) {
                Some(_) => Some(Spot::Slot(key)),
                None => None,
            }
        }
    }
}

// The places of a class as the classes name them. None exactly where one of them is none of a state.
fn names_of(
    alloc: Global,
    slots: &MapOf<Value>,
    class: &[Spot],
) -> Result<Option<List<Spot>>, OutOfMemory>
    requires { AreSlots slots.now }
    ensures { IfOk result (λ names. MatchOption names (All (IsPointPlace slots.now) class.now → ⊥)
        (AreNamesOf slots.now class.now)) }
{
    let mut names = List::new(alloc);
    for place in class {
        match name_of(slots, *place) {
            None => return Ok(None),
            Some(name) => names.push(name)?,
        }
    }
    Ok(Some(names))
}

// The same of all classes.
fn named_classes(
    alloc: Global,
    slots: &MapOf<Value>,
    classes: &[List<Spot>],
) -> Result<Option<List<List<Spot>>>, OutOfMemory>
    requires { AreSlots slots.now }
    ensures { IfOk result (λ names. MatchOption names
        (All (λ class. All (IsPointPlace slots.now) class) classes.now → ⊥) (AreNames slots.now classes.now)) }
{
    let mut names = List::new(alloc);
    for class in classes {
        match names_of(alloc, slots, class.as_slice())? {
            None => return Ok(None),
            Some(group) => names.push(group)?,
        }
    }
    Ok(Some(names))
}

// Puts the places of class number `at` together.
fn join_class(classes: &mut Classes, names: &[List<Spot>], at: usize) -> Result<(), OutOfMemory>
    requires { at < length names.now }
    ensures joins { OnOk result (Joins names.now at 0 classes.old → Joins names.now (at + 1) 0 classes.new) }
    ensures division { IsDivision classes.old → IsDivision classes.new }
{
    let class = names[at].as_slice();
    for i in 1..class.len() {
        classes.follow(class[i], class[0])?;
    }
    Ok(())
}

// The division with these classes, if there is one.
fn joined_classes(alloc: Global, names: &[List<Spot>]) -> Result<Classes, OutOfMemory>
    ensures joins { IfOk result (Joins names.now (length names.now) 0) }
    ensures division { IfOk result (λ classes. IsDivision classes) }
{
    let mut classes = Classes::new(alloc);
    for at in 0..names.len() {
        join_class(&mut classes, names, at)?;
    }
    Ok(classes)
}

fn is_same_place(a: Spot, b: Spot) -> bool
    ensures same { IsTrue result → a ≡ b }
    ensures apart { number a ≡ number b → IsTrue result }
{
    places_have_own_numbers(a, b);
    a == b
}

fn are_same_places(a: &[Spot], b: &[Spot]) -> bool
    ensures same { IsTrue result → a.now ≡ b.now }
    ensures apart { map number a.now ≡ map number b.now → IsTrue result }
{
    if a.len() != b.len() {
        return false;
    }
    for i in 0..a.len() {
        if !is_same_place(a[i], b[i]) {
            return false;
        }
    }
    true
}

// Whether two lists of classes have the same places.
fn are_same_classes(a: &[List<Spot>], b: &[List<Spot>]) -> bool
    ensures same { IsTrue result → a.now ≡ b.now }
    ensures apart { map (map number) a.now ≡ map (map number) b.now → IsTrue result }
{
    if a.len() != b.len() {
        return false;
    }
    for i in 0..a.len() {
        if !are_same_places(a[i].as_slice(), b[i].as_slice()) {
            return false;
        }
    }
    true
}

impl State {
    /// The state between two instructions that has these parts. `NotAState` exactly where none has.
    pub fn of(alloc: Global, parts: &StateParts) -> Result<State, PartsError>
        ensures { MatchResult result (IsStateOf parts.now) (IsRefused parts.now) }
    {
        let mut bare = match bare_parts(alloc, parts)? {
            None => return Err(PartsError::NotAState),
            Some(bare) => bare,
        };
        let names = match named_classes(alloc, &bare.slots, parts.classes.as_slice())? {
            None => return Err(PartsError::NotAState),
            Some(names) => names,
        };
        let classes = joined_classes(alloc, names.as_slice())?;
        let groups = classes.groups()?;
        if !are_same_classes(groups.as_slice(), names.as_slice()) {
            return Err(PartsError::NotAState);
        }
        bare.classes = classes;
        let state = State::with(alloc, bare)?;
        Ok(state)
    }
}
