ghost use Rattle.std.specs.Prelude.{◌≡◌, ◌<◌, ◌≤◌, ◌^◌, ◌&&◌, ◌==◌, ℕ, List, length, OnOk, OnErr};
ghost use Rattle.vw_lattice.specs.Entries.{IsAscending};
ghost use Rattle.vw_domain.specs.Registers.{IsWithin};
ghost use Rattle.vw_domain.specs.State.{Fits};
ghost use Rattle.vw_domain.specs.Abstract.{abstract_of};
ghost use Rattle.vw_domain.specs.Calls.{after_call, after_probe, reach, deeper_by, deeper};
ghost use Rattle.vw_domain.specs.Stores.{called_register, CallsRow, is_left, key_limit, IsCallOffset, LeavesAll, Pushes, Calls};
ghost use Rattle.vw_domain.specs.Writes.{is_gone};

use crate::cells::Cell;
use crate::forgets::forget_in_slots;
use crate::gone::{Gone, is_gone};
use crate::parts::{Fact, Parts};
use crate::registers::{Register, offset_at, value_at};
use crate::state::State;
use crate::stores::{add_below, lose_between};
use vw_bits::OutOfMemory;
use vw_names::{Classes, Spot};
use vw_stack::Offset;
use vw_values::Value;

// What is known of a register once a call returned: some number where the call need not keep it.
fn call_in_cell(cell: &mut Cell, number: u8, gone: Gone)
    ensures { cell.new ≡ called_register gone number cell.old }
{
    if !is_gone(gone, number) {
        cell.forget(gone);
        return;
    }
    let value = if number < 16 { Value::Num } else { Value::Any };
    *cell = Cell::of(Register {
        offset: Offset::Unknown,
        value,
    });
}

fn call_in_row(row: &mut [Cell], gone: Gone)
    requires { length row.old ≡ 17 }
    ensures { CallsRow gone row.old row.new }
{
    for i in 0..17u8 {
        call_in_cell(&mut row[i as usize], i, gone);
    }
}

// Takes a register out of its class where it is written.
fn leave_register(classes: &mut Classes, register: u8, gone: Gone)
    ensures { LeavesAll (λ a. (a == register) && is_gone gone register) classes.old classes.new }
{
    if is_gone(gone, register) {
        classes.leave(Spot::Reg(register));
    }
}

fn leave_registers(classes: &mut Classes, gone: Gone)
    ensures { LeavesAll (is_left gone) classes.old classes.new }
{
    for i in 0..17u8 {
        leave_register(classes, i, gone);
    }
}

// The first key of a slot that a call leaves.
fn key_limit(offset: Offset) -> i64
    requires { IsCallOffset offset }
    ensures { result ≡ key_limit offset }
{
    match offset {
        Offset::Unknown => (1 << 33) + 2,
        Offset::Known(c) => c + c,
    }
}

// Writes the return address. Where memory is refused, the parts stay as they were.
fn push(parts: &mut Parts, offset: Offset) -> Result<(), OutOfMemory>
    requires { IsCallOffset offset }
    ensures ok { OnOk result (Pushes offset parts.old parts.new) }
    ensures err { OnErr result (parts.new ≡ parts.old) }
{
    match offset {
        Offset::Unknown => Ok(()),
        Offset::Known(c) => add_below(parts, c - 8, c),
    }
}

// What a call leaves, with rsp at this offset before it, that writes these registers. Where memory is refused, the parts
// stay as they were.
fn call(parts: &mut Parts, offset: Offset, gone: Gone) -> Result<(), OutOfMemory>
    requires offset { IsCallOffset offset }
    requires row { length parts.old.registers ≡ 17 }
    requires slots { IsAscending parts.old.slots }
    ensures ok { OnOk result (Calls offset gone parts.old parts.new) }
    ensures err { OnErr result (parts.new ≡ parts.old) }
{
    push(parts, offset)?;
    lose_between(parts, -(1 << 33), key_limit(offset));
    leave_registers(&mut parts.classes, gone);
    parts.classes.leave(Spot::Flags);
    call_in_row(&mut parts.registers, gone);
    forget_in_slots(&mut parts.slots, gone);
    parts.fact = Fact::Unknown;
    Ok(())
}

// How far so many bytes below an offset reach below offset 0.
fn reach(count: u64, offset: i64) -> u64
    requires count { count ≤ 2 ^ 31 }
    requires offset { IsWithin (2 ^ 31) offset }
    ensures reach { result ≡ reach count offset }
    ensures within { result ≤ 2 ^ 32 }
{
    (count as i64 - offset).max(0) as u64
}

// The depth that is known once a probe of so many bytes came back, with rsp at this offset.
fn deeper_by(count: u64, offset: Offset, depth: u64) -> u64
    requires offset { IsCallOffset offset }
    requires depth { depth ≤ 2 ^ 32 }
    ensures depth { result ≡ deeper_by count offset depth }
    ensures within { result ≤ 2 ^ 32 }
{
    match offset {
        Offset::Unknown => depth,
        Offset::Known(c) => {
            if count <= 1 << 31 {
                depth.max(reach(count, c))
            } else {
                depth
            }
        }
    }
}

// The same where a value tells how many bytes were asked for.
fn deeper(count: Value, offset: Offset, depth: u64) -> u64
    requires offset { IsCallOffset offset }
    requires depth { depth ≤ 2 ^ 32 }
    ensures depth { result ≡ deeper count offset depth }
    ensures within { result ≤ 2 ^ 32 }
{
    match count {
        Value::Const(n) => deeper_by(n, offset, depth),
        _ => depth,
    }
}

impl State {
    /// What a call of a function leaves once it returned: the registers that it need not keep hold any numbers (psABI,
    /// 3.2.1), the return address is written, slots below rsp are lost, or all where its offset is not known, and the
    /// flags tell nothing. Where memory is refused, the state stays as it was.
    pub fn call(&mut self) -> Result<(), OutOfMemory>
        ensures ok { OnOk result (abstract_of self.new ≡ after_call (abstract_of self.old)) }
        ensures fits { OnOk result ((b : List ℕ) → Fits b self.old → Fits b self.new) }
        ensures err { OnErr result (self.new ≡ self.old) }
    {
        let parts = &mut *self.parts;
        let offset = offset_at(&parts.registers, 4);
        call(parts, offset, Gone::Unsaved)?;
        Ok(())
    }

    /// What a call of the probe of the stack leaves once it came back: the registers of the processor hold what they
    /// held, the return address is written, slots below rsp are lost, or all where its offset is not known, and the
    /// flags tell nothing. Where rax held a number of at most 2^31, the stack was probed that many bytes below rsp.
    /// Where memory is refused, the state stays as it was.
    pub fn call_probe(&mut self) -> Result<(), OutOfMemory>
        ensures ok { OnOk result (abstract_of self.new ≡ after_probe (abstract_of self.old)) }
        ensures fits { OnOk result ((b : List ℕ) → Fits b self.old → Fits b self.new) }
        ensures err { OnErr result (self.new ≡ self.old) }
    {
        let parts = &mut *self.parts;
        let count = value_at(&parts.registers, 0);
        let offset = offset_at(&parts.registers, 4);
        let depth = deeper(count, offset, parts.probed);
        call(parts, offset, Gone::Temporary)?;
        parts.probed = depth;
        Ok(())
    }
}
