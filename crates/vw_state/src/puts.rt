//! The statements that put numbers into registers.

ghost use Rattle.std.specs.Prelude.{◌≡◌, ◌≤◌, ◌<◌, ◌^◌, ℕ, List, length, OnOk};
ghost use Rattle.vw_values.specs.Bounds.{IsBounds};
ghost use Rattle.vw_values.specs.Masks.{and};
ghost use Rattle.vw_values.specs.Narrowing.{narrow, any_number};
ghost use Rattle.vw_values.specs.Scales.{shl4};
ghost use Rattle.vw_values.specs.Values.{IsAmong};
ghost use Rattle.vw_insn.specs.Listed.{IsMem};
ghost use Rattle.vw_stmt.specs.declared.statement.Stmt.{Stmt};
ghost use Rattle.vw_stmt.specs.Lifted.{IsLifted};
ghost use Rattle.vw_domain.specs.Abstract.{abstract_of};
ghost use Rattle.vw_domain.specs.Addresses.{value_of};
ghost use Rattle.vw_domain.specs.FormLaws.{HoldsBounds, StatementsKeepStateForms};
ghost use Rattle.vw_domain.specs.FormRanges.{IsStateForm};
ghost use Rattle.vw_domain.specs.Operands.{index_of, operand_of, operand_offset};
ghost use Rattle.vw_domain.specs.Registers.{IsRegister};
ghost use Rattle.vw_domain.specs.State.{Fits, plain_register};
ghost use Rattle.vw_domain.specs.Statements.{moved, lea_offset, chosen_offset, sum_value, lea_value, chosen_value, apply};
ghost use Rattle.vw_state.specs.Context.{equation_site};

use crate::Site;
use crate::moves::{
    any_number, chosen_offset, chosen_value, lea_offset, lea_value, moved, sum_value,
};
use crate::registers::{displacement, known_of, number_of, operand_known, plain, put};
use vw_bits::OutOfMemory;
use vw_domain::{Register, State, state_forms_are_kept, states_have_forms};
use vw_insn::{Mem, Width};
use vw_names::Spot;
use vw_stmt::{Operand, Var};
use vw_values::{Value, and, narrow, shl4};

// The form of a state, with whatever bounds its values name, and with some that hold those of the site; and what
// statements make of such forms.
pub fn state_form(site: &Site, state: &State)
    ensures form { (b : List ℕ) → Fits b state.now → IsStateForm b (abstract_of state.now) }
    ensures more { (members : List ℕ) × HoldsBounds members site.now.bounds.now
        × IsStateForm members (abstract_of state.now) }
    ensures bounds { IsBounds site.now.bounds.now }
    ensures kept { StatementsKeepStateForms }
{
    state.is_state();
    site.bounds.are_bounds();
    states_have_forms();
    state_forms_are_kept();
}

// What is known of the number that a statement puts into its register.

pub fn narrowed(
    site: &Site,
    state: &State,
    src: Var,
    from: Width,
    to: Width,
    signed: bool,
) -> Register
    requires few { length site.now.tables.now ≤ 64 }
    requires lifted { IsLifted (Stmt.Narrow src src from to signed) }
    ensures is { result ≡ plain_register (narrow (value_of (abstract_of state.now) (index_of src)) from to signed) }
    ensures known { IsRegister result }
    ensures among { Fits site.now.bounds.now state.now → IsAmong site.now.bounds.now result.value }
{
    state_form(site, state);
    plain(narrow(known_of(state, src).value, from, to, signed))
}

pub fn summed(site: &Site, state: &State, a: Var, b: Operand, minus: bool) -> Register
    requires few { length site.now.tables.now ≤ 64 }
    ensures is { (next : ℕ) → result ≡ record {
      offset = moved minus ((abstract_of state.now).offsets (index_of a)) (operand_of (abstract_of state.now) b);
      value = sum_value (equation_site site.now next) minus (value_of (abstract_of state.now) (index_of a)) (operand_of (abstract_of state.now) b);
    } }
    ensures known { IsRegister result }
    ensures among { Fits site.now.bounds.now state.now → IsAmong site.now.bounds.now result.value }
{
    state_form(site, state);
    let left = known_of(state, a);
    let right = operand_known(state, b).value;
    Register {
        offset: moved(minus, left.offset, right),
        value: sum_value(site, minus, left.value, right),
    }
}

pub fn address_known(site: &Site, next: u32, state: &State, mem: &Mem) -> Register
    requires few { length site.now.tables.now ≤ 64 }
    requires mem { IsMem mem.now }
    ensures is { result ≡ record {
      offset = lea_offset (abstract_of state.now) mem.now;
      value = lea_value (equation_site site.now next) (abstract_of state.now) mem.now;
    } }
    ensures known { IsRegister result }
    ensures among { Fits site.now.bounds.now state.now → IsAmong site.now.bounds.now result.value }
{
    state_form(site, state);
    let _disp = displacement(mem);
    Register {
        offset: lea_offset(state, mem),
        value: lea_value(site, next, state, mem),
    }
}

pub fn masked(site: &Site, state: &State, width: Width, a: Var, b: Operand) -> Register
    requires few { length site.now.tables.now ≤ 64 }
    requires lifted { IsLifted (Stmt.And a width a b) }
    ensures is { result ≡ plain_register (and (value_of (abstract_of state.now) (index_of a)) (operand_of (abstract_of state.now) b) width site.now.bounds.now) }
    ensures known { IsRegister result }
    ensures among { Fits site.now.bounds.now state.now → IsAmong site.now.bounds.now result.value }
{
    state_form(site, state);
    let left = known_of(state, a).value;
    let right = operand_known(state, b).value;
    plain(and(left, right, width, site.bounds))
}

pub fn shifted(site: &Site, state: &State, dst: Var) -> Register
    ensures is { result ≡ plain_register (shl4 (value_of (abstract_of state.now) (index_of dst)) site.now.bounds.now) }
    ensures known { IsRegister result }
    ensures among { Fits site.now.bounds.now state.now → IsAmong site.now.bounds.now result.value }
{
    state_form(site, state);
    plain(shl4(known_of(state, dst).value, site.bounds))
}

pub fn opened(site: &Site, state: &State, width: Width) -> Register
    requires few { length site.now.tables.now ≤ 64 }
    ensures is { result ≡ plain_register (any_number width) }
    ensures known { IsRegister result }
    ensures among { Fits site.now.bounds.now state.now → IsAmong site.now.bounds.now result.value }
{
    state_form(site, state);
    plain(any_number(width))
}

pub fn chosen(site: &Site, state: &State, width: Width, a: Var, b: Operand) -> Register
    requires few { length site.now.tables.now ≤ 64 }
    requires lifted { IsLifted (Stmt.Choose a width a b) }
    ensures is { (next : ℕ) → result ≡ record {
      offset = chosen_offset width ((abstract_of state.now).offsets (index_of a)) (operand_offset (abstract_of state.now) b);
      value = chosen_value (equation_site site.now next) width (value_of (abstract_of state.now) (index_of a)) (operand_of (abstract_of state.now) b);
    } }
    ensures known { IsRegister result }
    ensures among { Fits site.now.bounds.now state.now → IsAmong site.now.bounds.now result.value }
{
    state_form(site, state);
    let left = known_of(state, a);
    let right = operand_known(state, b);
    Register {
        offset: chosen_offset(width, left.offset, right.offset),
        value: chosen_value(site, width, left.value, right.value),
    }
}
