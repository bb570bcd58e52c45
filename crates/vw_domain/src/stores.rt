ghost use Rattle.std.specs.Prelude.{◌≡◌, ◌<◌, ◌^◌, ℕ, List, None, Some, OnOk, OnErr};
ghost use Rattle.vw_locals.specs.Ranges.{is_between};
ghost use Rattle.vw_values.specs.declared.value.Value.{Value};
ghost use Rattle.vw_domain.specs.Registers.{IsWithin, register_at};
ghost use Rattle.vw_domain.specs.State.{Fits, unknown_state};
ghost use Rattle.vw_domain.specs.Abstract.{abstract_of};
ghost use Rattle.vw_domain.specs.Changes.{store_frame};
ghost use Rattle.vw_domain.specs.Stores.{content_size, content_source, content_value, IsContent, IsContentAmong, LosesSlots, is_overlapped, PutsContent, PutsSlot, AddsBelow, StoresBytes};

use crate::parts::{Parts, unknown_parts};
use crate::registers::value_at;
use crate::state::State;
use vw_bits::OutOfMemory;
use vw_names::Spot;
use vw_values::Value;

/// What is known of bytes of the frame that are written.
#[derive(Clone, Copy, PartialEq, Eq)]
pub enum Content {
    /// Nothing: no slot stands there.
    Nothing,
    /// They begin with a slot of 8 bytes that holds the number of the register with this number.
    Copy(u8),
    /// They begin with a slot of 8 bytes, for whose number this value stands.
    Wide(Value),
    /// They begin with a slot of 4 bytes, for whose number, extended by zeros, this value stands.
    Narrow(Value),
}

// Takes out the slots with keys from `low` to `high` - 1. Takes no memory.
pub(crate) fn lose_between(parts: &mut Parts, low: i64, high: i64)
    ensures { LosesSlots (is_between low high) parts.old parts.new }
{
    parts.classes.leave_slots(low, high);
    parts.slots.cut_range(low, high);
}

// Takes out the slots of which `count` bytes at an offset have a byte. Takes no memory.
fn lose_overlapped(parts: &mut Parts, offset: i64, count: u8)
    requires offset { IsWithin (2 ^ 32) offset }
    ensures { LosesSlots (is_overlapped offset count) parts.old parts.new }
{
    let key = offset + offset;
    let end = key + count as i64 + count as i64;
    lose_between(parts, key - 6, end);
    lose_between(parts, key - 8, key - 7);
    lose_between(parts, key - 10, key - 9);
    lose_between(parts, key - 12, key - 11);
    lose_between(parts, key - 14, key - 13);
}

// Puts a slot that is alone under a key. Where memory is refused, the parts stay as they were.
fn put_slot(parts: &mut Parts, key: i64, value: Value) -> Result<(), OutOfMemory>
    ensures ok { OnOk result (PutsSlot key value None parts.old parts.new) }
{
    parts.slots.put(key, value)?;
    Ok(())
}

// Puts a slot that holds a register's number under a key.
fn put_copy(parts: &mut Parts, key: i64, register: u8) -> Result<(), OutOfMemory>
    requires register { register < 17 }
    ensures ok { OnOk result (PutsSlot key (register_at parts.old.registers register).value
        (Some register) parts.old parts.new) }
{
    let value = value_at(&parts.registers, register);
    parts.slots.put(key, value)?;
    parts.classes.follow(Spot::Slot(key), Spot::Reg(register))?;
    Ok(())
}

// Puts the slot that stands at an offset once bytes are written there.
fn put_content(parts: &mut Parts, offset: i64, content: Content) -> Result<(), OutOfMemory>
    requires offset { IsWithin (2 ^ 32) offset }
    requires content { IsContent content }
    ensures ok { OnOk result (PutsContent offset content parts.old parts.new) }
{
    let key = offset + offset;
    match content {
        Content::Nothing => Ok(()),
        Content::Copy(register) => put_copy(parts, key, register),
        Content::Wide(value) => put_slot(parts, key, value),
        Content::Narrow(value) => put_slot(parts, key + 1, value),
    }
}

// Adds the bytes of the frame from `low` to `high` - 1 to those that were written, but for those at the value that rsp
// had at the function's entry and above. Where memory is refused, the parts stay as they were.
pub(crate) fn add_below(parts: &mut Parts, low: i64, high: i64) -> Result<(), OutOfMemory>
    ensures ok { OnOk result (AddsBelow low high parts.old parts.new) }
    ensures err { OnErr result (parts.new ≡ parts.old) }
{
    parts.written.add(low, high.min(0))?;
    Ok(())
}

// Writes bytes of the frame.
fn store(parts: &mut Parts, offset: i64, count: u8, content: Content) -> Result<(), OutOfMemory>
    requires offset { IsWithin (2 ^ 32) offset }
    requires content { IsContent content }
    ensures { OnOk result (StoresBytes offset count content parts.old parts.new) }
{
    lose_overlapped(parts, offset, count);
    put_content(parts, offset, content)?;
    add_below(parts, offset, offset + count as i64)?;
    Ok(())
}

impl State {
    /// Writes `count` bytes at an offset of the frame, which is at most 2^32 in size. Slots that they overlap go, and a
    /// slot with the content stands there afterwards. Where memory is refused, nothing is known any more.
    pub fn store(&mut self, offset: i64, count: u8, content: Content) -> Result<(), OutOfMemory>
        requires offset { IsWithin (2 ^ 32) offset }
        requires some { 0 < count }
        requires content { IsContent content }
        ensures ok { OnOk result ((v : Value) → abstract_of self.new
            ≡ store_frame (abstract_of self.old) offset count
            (content_size content) (content_source content) (content_value v content)) }
        ensures fits { OnOk result ((b : List ℕ) → Fits b self.old → IsContentAmong b content
            → Fits b self.new) }
        ensures err { OnErr result (self.new ≡ unknown_state) }
    {
        let alloc = *Box::allocator(&self.parts);
        match store(&mut self.parts, offset, count, content) {
            Ok(()) => Ok(()),
            Err(error) => {
                *self.parts = unknown_parts(alloc);
                Err(error)
            }
        }
    }
}
