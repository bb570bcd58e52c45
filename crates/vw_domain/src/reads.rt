ghost use Rattle.std.specs.Prelude.{◌≡◌, ◌↔◌, ◌<◌, ◌≤◌, ◌^◌, ◌≤ℤ◌, ◌<ℤ◌, ◌-ℤ◌, ◌||◌, max, pos, ℕ, ℤ, true, IsTrue, OnOk, OnErr};
ghost use Rattle.vw_locals.specs.Ranges.{is_between};
ghost use Rattle.vw_names.specs.Spot.{number};
ghost use Rattle.vw_domain.specs.Registers.{IsWithin};
ghost use Rattle.vw_domain.specs.Abstract.{abstract_of, IsFrameSpot, slot_key, value_of, is_there, class_number, is_place};

use crate::parts::{Fact, Parts};
use crate::registers::{Register, value_at};
use crate::state::State;
use vw_bits::OutOfMemory;
use vw_lattice::MapOf;
use vw_names::Spot;
use vw_values::Value;

// The key of the slot at an offset.
pub(crate) fn key_at(slots: &MapOf<Value>, offset: i64) -> i64
    requires { IsWithin (2 ^ 32) offset }
    ensures { result ≡ slot_key slots.now offset }
{
    let wide = offset + offset;
    match slots.get(wide + 1) {
        Some(_) => wide + 1,
        None => wide,
    }
}

// Whether a place is there.
fn is_there(parts: &Parts, place: Spot) -> bool
    requires { IsFrameSpot place }
    ensures { IsTrue result ↔ (is_there parts.now place ≡ true) }
{
    match place {
        Spot::Reg(r) => r < 17,
        Spot::Flags => true,
        Spot::Slot(offset) => match parts.slots.get(key_at(&parts.slots, offset)) {
            Some(_) => true,
            None => false,
        },
    }
}

// A place as the classes name it.
pub(crate) fn named_place(parts: &Parts, place: Spot) -> Spot
    requires { IsFrameSpot place }
    ensures { number result ≡ class_number parts.now place }
{
    match place {
        Spot::Reg(r) => Spot::Reg(r),
        Spot::Flags => Spot::Flags,
        Spot::Slot(offset) => Spot::Slot(key_at(&parts.slots, offset)),
    }
}

// The value of a place; any where nothing is known of it.
pub(crate) fn value_of(parts: &Parts, place: Spot) -> Value
    requires { IsFrameSpot place }
    ensures { result ≡ value_of parts.now place }
{
    match place {
        Spot::Reg(r) => value_at(&parts.registers, r),
        Spot::Flags => Value::Any,
        Spot::Slot(offset) => match parts.slots.get(key_at(&parts.slots, offset)) {
            Some(value) => *value,
            None => Value::Any,
        },
    }
}

pub(crate) fn is_one(a: Spot, b: Spot) -> bool
    ensures { IsTrue result ↔ (is_place a b ≡ true) }
{
    match (a, b) {
        (Spot::Reg(q), Spot::Reg(r)) => q == r,
        (Spot::Flags, Spot::Flags) => true,
        (Spot::Slot(c), Spot::Slot(d)) => c == d,
        (Spot::Reg(_), Spot::Flags)
        | (Spot::Reg(_), Spot::Slot(_))
        | (Spot::Flags, Spot::Reg(_))
        | (Spot::Flags, Spot::Slot(_))
        | (Spot::Slot(_), Spot::Reg(_))
        | (Spot::Slot(_), Spot::Flags) => false,
    }
}

impl State {
    /// What is known of the register with this number.
    pub fn register(&self, r: u8) -> Register
        requires { r < 17 }
        ensures offset { result.offset ≡ (abstract_of self.now).offsets r }
        ensures value { result.value ≡ (abstract_of self.now).values (Spot.Reg r) }
    {
        self.parts.registers[r as usize].register()
    }

    /// The value of a place; any where nothing is known of it. A slot lies at most 2^32 bytes from the value of rsp
    /// at the function's entry.
    pub fn value(&self, place: Spot) -> Value
        requires { IsFrameSpot place }
        ensures { result ≡ (abstract_of self.now).values place }
    {
        value_of(&self.parts, place)
    }

    /// The size of the slot at an offset, 4 or 8 bytes, and 0 where there is none.
    pub fn size(&self, offset: i64) -> u8
        requires { IsWithin (2 ^ 32) offset }
        ensures { result ≡ (abstract_of self.now).sizes offset }
    {
        let wide = offset + offset;
        let parts: &Parts = &self.parts;
        if parts.slots.get(wide + 1).is_some() {
            return 4;
        }
        if parts.slots.get(wide).is_some() {
            return 8;
        }
        0
    }

    /// Whether two places are in one class of equal values.
    pub fn same(&self, a: Spot, b: Spot) -> bool
        requires first { IsFrameSpot a }
        requires second { IsFrameSpot b }
        ensures { IsTrue result ↔ ((abstract_of self.now).same a b ≡ true) }
    {
        let parts: &Parts = &self.parts;
        is_one(a, b)
            || is_there(parts, a)
                && is_there(parts, b)
                && parts
                    .classes
                    .same(named_place(parts, a), named_place(parts, b))
    }

    /// How deep the stack was probed, in bytes.
    pub fn probed(&self) -> u64
        ensures { result ≡ (abstract_of self.now).probed }
    {
        self.parts.probed
    }

    /// What the flags tell.
    pub fn fact(&self) -> Fact
        ensures { result ≡ (abstract_of self.now).fact }
    {
        self.parts.fact
    }

    /// Whether the bytes of the frame from `low` to `high` - 1 were written.
    pub fn is_written(&self, low: i64, high: i64) -> bool
        ensures { IsTrue result ↔ ((x : ℤ) → low ≤ℤ x → x <ℤ high → (abstract_of self.now).written x ≡ true) }
    {
        self.parts.written.holds(low, high)
    }

    /// Raises the depth to which the stack was probed, to at least so many bytes.
    pub fn raise(&mut self, depth: u64)
        requires { depth ≤ 2 ^ 32 }
        ensures { self.new ≡ record self.old { probed = max self.old.probed depth } }
    {
        let parts = &mut *self.parts;
        parts.probed = parts.probed.max(depth);
    }

    /// Adds the bytes of the frame from `low` to `high` - 1 to those that were written. Where memory is refused, the
    /// state stays as it was.
    pub fn add_written(&mut self, low: i64, high: i64) -> Result<(), OutOfMemory>
        requires low { (pos 0 -ℤ pos (2 ^ 32)) ≤ℤ low }
        requires high { high ≤ℤ pos 0 }
        ensures written { OnOk result ((x : ℤ) → (abstract_of self.new).written x
            ≡ (is_between low high x || (abstract_of self.old).written x)) }
        ensures others { self.new ≡ record self.old { written = self.new.written } }
        ensures err { OnErr result (self.new ≡ self.old) }
    {
        let parts = &mut *self.parts;
        parts.written.add(low, high)?;
        Ok(())
    }
}
