ghost use Rattle.std.specs.Prelude.{◌≡◌, ◌||◌, ◌↔◌, ◌≤◌, ◌<◌, ℕ, ℤ, length, min, IsTrue, IfOk, OnOk};
ghost use Rattle.vw_lattice.specs.Order.{IsJoin, TellsChange};
ghost use Rattle.vw_domain.specs.State.{fact_below, state_below, AreSlots, Fits, IsState, unknown_state};
ghost use Rattle.vw_domain.specs.StateJoin.{IsFactJoin, JoinsParts};
ghost use Rattle.vw_domain.specs.Rest.{rest_below};

use crate::cells::Cell;
use crate::registers::{Register, does_row_land, is_row_below, is_row_same, join_rows};
use crate::slots::{are_slots_among, are_slots_same};
use std::alloc::Global;
use vw_bits::OutOfMemory;
use vw_lattice::{Lattice, MapOf};
use vw_locals::Written;
use vw_names::Classes;
use vw_stack::Offset;
use vw_values::{Bounds, Value};

/// What the flags tell.
#[derive(Clone, Copy, Debug, PartialEq, Eq)]
pub enum Fact {
    /// Nothing is known.
    Unknown,
    /// They are those of a comparison of `w` bits, 32 or 64, of the number in the place `flags` with `k`, which
    /// is below 2^w (SDM volume 2, "CMP").
    Compare { w: u8, k: u64 },
}

/// The parts of a state, by which contracts see it.
#[derive(Drop)]
pub struct Parts {
    /// The registers, by their numbers. Number 16 holds a number within one instruction.
    pub registers: [Cell; 17],
    /// How deep the stack was probed, in bytes.
    pub probed: u64,
    /// The bytes of the frame that were written.
    pub written: Written,
    /// The slots, by keys that hold their offsets and sizes.
    pub slots: MapOf<Value>,
    /// The classes of places with equal values, which name slots by their keys.
    pub classes: Classes,
    /// What the flags tell.
    pub fact: Fact,
}

// With ten slots a state takes at most 1,200 bytes.
const _: () = prove!(size_of::<Parts>() + 10 * size_of::<(i64, Value)>() <= 1_200);

fn is_fact_below(low: Fact, high: Fact) -> bool
    ensures { IsTrue result ↔ fact_below low high }
{
    match (low, high) {
        (_, Fact::Unknown) => true,
        (Fact::Unknown, Fact::Compare { .. }) => false,
        (Fact::Compare { w: v, k: j }, Fact::Compare { w, k }) => v == w && j == k,
    }
}

// Leaves the fact where the other is the same, and answers whether it is gone.
fn join_fact(fact: &mut Fact, other: Fact) -> bool
    ensures joins { IsFactJoin fact.old other fact.new }
    ensures told { TellsChange result fact.old fact.new }
{
    if is_fact_below(other, *fact) {
        return false;
    }
    *fact = Fact::Unknown;
    true
}

// Takes the lesser depth, and answers whether it is another.
fn join_depth(probed: &mut u64, other: u64) -> bool
    ensures depth { probed.new ≡ min probed.old other }
    ensures told { TellsChange result probed.old probed.new }
{
    if *probed <= other {
        return false;
    }
    *probed = other;
    true
}

// Whether each part but the registers is below that of the other.
fn is_rest_below(low: &Parts, high: &Parts) -> bool
    ensures { IsTrue result ↔ rest_below low.now high.now }
{
    high.probed <= low.probed
        && is_fact_below(low.fact, high.fact)
        && low.slots.leq(&high.slots)
        && low.classes.leq(&high.classes)
        && low.written.leq(&high.written)
}

// Whether each part is below that of the other.
pub(crate) fn is_below(low: &Parts, high: &Parts) -> bool
    ensures { IsTrue result ↔ state_below low.now high.now }
{
    is_row_below(&low.registers, &high.registers) && is_rest_below(low, high)
}

// Whether each bound that a value of the greater parts names is among these, and each part is below that of the other, in
// one pass over the registers of both.
pub(crate) fn do_land(low: &Parts, high: &Parts, bounds: &Bounds) -> bool
    requires { AreSlots high.now.slots }
    ensures { IsTrue result ↔ (Fits bounds.now high.now × state_below low.now high.now) }
{
    if !does_row_land(&low.registers, &high.registers, bounds) {
        return false;
    }
    are_slots_among(&high.slots, bounds) && is_rest_below(low, high)
}

// Whether parts are equal, and each bound that a value of them names is among these, in one pass over both.
pub(crate) fn is_same(parts: &Parts, other: &Parts, bounds: &Bounds) -> bool
    requires { AreSlots other.now.slots }
    ensures { IsTrue result ↔ ((parts.now ≡ other.now) × Fits bounds.now other.now) }
{
    if parts.probed != other.probed || parts.fact != other.fact {
        return false;
    }
    if !is_row_same(&parts.registers, &other.registers, bounds) {
        return false;
    }
    if !are_slots_same(&parts.slots, &other.slots, bounds) {
        return false;
    }
    parts.classes.is_same(&other.classes) && parts.written.is_same(&other.written)
}

// Whether one of these holds, each of which is said of a part.
fn is_any(
    registers: bool,
    probed: bool,
    written: bool,
    slots: bool,
    classes: bool,
    fact: bool,
) -> bool
    ensures { result ≡ (registers || (probed || (written || (slots || (classes || fact))))) }
{
    registers || probed || written || slots || classes || fact
}

// Joins states part by part, in one pass over both, and answers whether that changed a part. Where memory is refused,
// nothing more is known of the parts.
pub(crate) fn join(parts: &mut Parts, other: &Parts, bounds: &Bounds) -> Result<bool, OutOfMemory>
    requires state { IsState parts.old }
    requires other { IsState other.now }
    ensures joins { IfOk result (λ _. JoinsParts bounds.now parts.old other.now parts.new) }
    ensures told { IfOk result (λ changed. TellsChange changed parts.old parts.new) }
{
    let probed = join_depth(&mut parts.probed, other.probed);
    let fact = join_fact(&mut parts.fact, other.fact);
    let registers = join_rows(&mut parts.registers, &other.registers, bounds)?;
    let slots = parts.slots.join(&other.slots, bounds)?;
    let classes = parts.classes.join(&other.classes, &())?;
    let written = parts.written.join(&other.written, &())?;
    Ok(is_any(registers, probed, written, slots, classes, fact))
}

// Equal parts.
pub(crate) fn copy(parts: &Parts) -> Result<Parts, OutOfMemory>
    ensures { IfOk result (λ copy. copy ≡ parts.now) }
{
    let written = parts.written.copy()?;
    let slots = parts.slots.copy()?;
    let classes = parts.classes.copy()?;
    Ok(Parts {
        registers: parts.registers,
        probed: parts.probed,
        written,
        slots,
        classes,
        fact: parts.fact,
    })
}

// Makes parts equal to others, in the memory that they have where this is enough. Where memory is refused, some of them
// are made so.
pub(crate) fn copy_from(parts: &mut Parts, other: &Parts) -> Result<(), OutOfMemory>
    ensures { OnOk result (parts.new ≡ other.now) }
{
    parts.slots = other.slots.copy()?;
    parts.written.copy_from(&other.written)?;
    parts.classes.copy_from(&other.classes)?;
    parts.registers = other.registers;
    parts.probed = other.probed;
    parts.fact = other.fact;
    Ok(())
}

// The parts of the state in which nothing is known. Takes no memory.
pub(crate) fn unknown_parts(alloc: Global) -> Parts
    ensures { result ≡ unknown_state }
{
    let cell = Cell::of(Register {
        offset: Offset::Unknown,
        value: Value::Any,
    });
    Parts {
        registers: [cell; 17],
        probed: 0,
        written: Written::new(alloc),
        slots: MapOf::new(alloc),
        classes: Classes::new(alloc),
        fact: Fact::Unknown,
    }
}
