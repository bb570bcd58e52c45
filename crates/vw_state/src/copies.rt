//! Statements that copy registers, load and store.

ghost use Rattle.std.specs.Prelude.{◌≡◌, ◌≤◌, ◌<◌, ◌^◌, ◌⊎◌, ℕ, ℤ, length, None, OnOk};
ghost use Rattle.vw_insn.specs.Listed.{IsMem};
ghost use Rattle.vw_stmt.specs.Lifted.{IsLoad, IsWordSize, IsXmmSize};
ghost use Rattle.vw_stack.specs.declared.offset.Offset.TheVariants.{Unknown};
ghost use Rattle.vw_values.specs.Values.{IsAmong};
ghost use Rattle.vw_values.specs.declared.value.Value.TheVariants.{Any};
ghost use Rattle.vw_domain.specs.Abstract.{abstract_of};
ghost use Rattle.vw_domain.specs.Addresses.{Frame, value_of, address_of};
ghost use Rattle.vw_domain.specs.Changes.{write};
ghost use Rattle.vw_domain.specs.Memory.{load_source, load_value, slot_size, stored_source, stored_value, store_at};
ghost use Rattle.vw_domain.specs.Operands.{operand_of};
ghost use Rattle.vw_domain.specs.Registers.{IsRegister, IsWithin};
ghost use Rattle.vw_domain.specs.State.{Fits, plain_register};
ghost use Rattle.vw_domain.specs.Statements.{copy_source};
ghost use Rattle.vw_state.specs.Addresses.{address_view};
ghost use Rattle.vw_state.specs.Context.{equation_site};

use crate::loads::{load_source, load_value};
use crate::puts::state_form;
use crate::registers::{displacement, plain};
use crate::stores::{content_of, store_at};
use crate::{Address, Site, address};
use vw_bits::OutOfMemory;
use vw_domain::{Content, Register, State};
use vw_insn::{Mem, Width};
use vw_names::Spot;
use vw_stack::Offset;
use vw_stmt::Operand;

// Copies a register. A copy of a register to itself leaves it alone in its class.
pub fn copy_register(site: &Site, state: &mut State, to: u8, from: u8) -> Result<(), OutOfMemory>
    requires to { to < 17 }
    requires from { from < 17 }
    ensures form { OnOk result (abstract_of state.new ≡ write (abstract_of state.old) to (copy_source to from)
        (value_of (abstract_of state.old) from) ((abstract_of state.old).offsets from)) }
    ensures fits { OnOk result
        (Fits site.now.bounds.now state.old → Fits site.now.bounds.now state.new) }
{
    state.is_state();
    let known = state.register(from);
    if from == to {
        state.write(to, known);
        return Ok(());
    }
    state.copy_to(to, Spot::Reg(from), known.offset)?;
    Ok(())
}

// The address of a memory operand. In the frame it lies at most 2^32 bytes from the value of rsp at the function's entry.
fn address_at(site: &Site, next: u32, state: &State, mem: &Mem) -> Address
    requires few { length site.now.tables.now ≤ 64 }
    requires mem { IsMem mem.now }
    ensures is { address_view result ≡ address_of (equation_site site.now next) (abstract_of state.now) mem.now }
    ensures frame { (c : ℤ) → address_view result ≡ Frame c → IsWithin (2 ^ 32) c }
{
    state_form(site, state);
    let _disp = displacement(mem);
    address(site, next, mem, state)
}

// What is known of what is loaded.
fn loaded(
    site: &Site,
    next: u32,
    state: &State,
    mem: &Mem,
    at: Address,
    size: u8,
    to: Width,
    signed: bool,
) -> Register
    requires few { length site.now.tables.now ≤ 64 }
    requires mem { IsMem mem.now }
    requires load { IsLoad size to signed }
    requires at { address_view at ≡ address_of (equation_site site.now next) (abstract_of state.now) mem.now }
    requires frame { (c : ℤ) → address_view at ≡ Frame c → IsWithin (2 ^ 32) c }
    requires fresh { load_source (abstract_of state.now) (address_view at) size signed ≡ None }
    ensures is { result ≡ plain_register (load_value (equation_site site.now next) (abstract_of state.now) (address_view at) size to signed) }
    ensures known { IsRegister result }
    ensures among { Fits site.now.bounds.now state.now → IsAmong site.now.bounds.now result.value }
{
    state_form(site, state);
    let _disp = displacement(mem);
    plain(load_value(site, state, at, size, to, signed))
}

pub fn load(
    site: &Site,
    next: u32,
    state: &mut State,
    dst: u8,
    size: u8,
    to: Width,
    signed: bool,
    mem: &Mem,
) -> Result<(), OutOfMemory>
    requires few { length site.now.tables.now ≤ 64 }
    requires dst { dst < 17 }
    requires mem { IsMem mem.now }
    requires load { IsLoad size to signed }
    ensures form { OnOk result (abstract_of state.new ≡ write (abstract_of state.old) dst
        (load_source (abstract_of state.old) (address_of (equation_site site.now next) (abstract_of state.old) mem.now) size signed)
        (load_value (equation_site site.now next) (abstract_of state.old) (address_of (equation_site site.now next) (abstract_of state.old) mem.now) size to signed)
        Unknown) }
    ensures fits { OnOk result
        (Fits site.now.bounds.now state.old → Fits site.now.bounds.now state.new) }
{
    let at = address_at(site, next, state, mem);
    match load_source(state, at, size, signed) {
        Some(offset) => {
            state.copy_to(dst, Spot::Slot(offset), Offset::Unknown)?;
            Ok(())
        }
        None => {
            let known = loaded(site, next, state, mem, at, size, to, signed);
            state.write(dst, known);
            Ok(())
        }
    }
}

pub fn store(
    site: &Site,
    next: u32,
    state: &mut State,
    mem: &Mem,
    size: u8,
    src: Operand,
) -> Result<(), OutOfMemory>
    requires few { length site.now.tables.now ≤ 64 }
    requires mem { IsMem mem.now }
    requires size { IsWordSize size }
    ensures form { OnOk result (abstract_of state.new ≡ store_at (abstract_of state.old)
        (address_of (equation_site site.now next) (abstract_of state.old) mem.now) size (slot_size size) (stored_source size src)
        (stored_value size (operand_of (abstract_of state.old) src))) }
    ensures fits { OnOk result
        (Fits site.now.bounds.now state.old → Fits site.now.bounds.now state.new) }
{
    let at = address_at(site, next, state, mem);
    let content = content_of(site, state, size, src);
    store_at(site, state, at, size, content)?;
    Ok(())
}

// Writes bytes of which nothing is known.
pub fn overwrite(
    site: &Site,
    next: u32,
    state: &mut State,
    mem: &Mem,
    size: u8,
) -> Result<(), OutOfMemory>
    requires few { length site.now.tables.now ≤ 64 }
    requires mem { IsMem mem.now }
    requires size { IsXmmSize size }
    ensures form { OnOk result (abstract_of state.new ≡ store_at (abstract_of state.old)
        (address_of (equation_site site.now next) (abstract_of state.old) mem.now) size 0 None Any) }
    ensures fits { OnOk result
        (Fits site.now.bounds.now state.old → Fits site.now.bounds.now state.new) }
{
    let at = address_at(site, next, state, mem);
    store_at(site, state, at, size, Content::Nothing)?;
    Ok(())
}
