//! What stores do to a state.

ghost use Rattle.std.specs.Prelude.{◌≡◌, ◌<◌, ◌^◌, ℤ, ℕ, List, OnOk};
ghost use Rattle.vw_stmt.specs.Lifted.{IsWordSize};
ghost use Rattle.vw_domain.specs.Abstract.{Abstract, abstract_of};
ghost use Rattle.vw_domain.specs.Addresses.{Frame};
ghost use Rattle.vw_domain.specs.Memory.{slot_size, stored_value, stored_source, store_at};
ghost use Rattle.vw_domain.specs.Operands.{operand_of};
ghost use Rattle.vw_domain.specs.Registers.{IsWithin};
ghost use Rattle.vw_domain.specs.State.{Fits};
ghost use Rattle.vw_domain.specs.Stores.{content_size, content_source, content_value, IsContent, IsContentAmong};
ghost use Rattle.vw_values.specs.declared.value.Value.{Value};
ghost use Rattle.vw_values.specs.Narrowing.{narrow32};
ghost use Rattle.vw_state.specs.Addresses.{address_view};

use crate::puts::state_form;
use crate::registers::{number_of, operand_known};
use crate::{Address, Site};
use vw_bits::OutOfMemory;
use vw_domain::{Content, State};
use vw_insn::word_of;
use vw_stmt::Operand;
use vw_values::{Value, low_bits_are_sound, narrow32};

// Writes bytes with this content at an address.
pub fn store_at(
    site: &Site,
    state: &mut State,
    at: Address,
    count: u8,
    content: Content,
) -> Result<(), OutOfMemory>
    requires frame { (c : ℤ) → address_view at ≡ Frame c → IsWithin (2 ^ 32) c }
    requires some { 0 < count }
    requires content { IsContent content }
    ensures form { OnOk result ((v : Value) → abstract_of state.new
        ≡ store_at (abstract_of state.old) (address_view at) count
        (content_size content) (content_source content) (content_value v content)) }
    ensures fits { OnOk result (Fits site.now.bounds.now state.old
        → IsContentAmong site.now.bounds.now content → Fits site.now.bounds.now state.new) }
{
    match at {
        Address::Frame(offset) => {
            state.store(offset, count, content)?;
            Ok(())
        }
        Address::Unknown => {
            state.lose_slots();
            Ok(())
        }
        Address::Heap { .. }
        | Address::Globals { .. }
        | Address::Image(_)
        | Address::Range { .. }
        | Address::Entry { .. } => Ok(()),
    }
}

// The content of eight bytes.
fn whole_content(src: Operand) -> Content
    ensures size { content_size result ≡ slot_size 8 }
    ensures source { content_source result ≡ stored_source 8 src }
    ensures value { (st : Abstract) → content_value (operand_of st src) result ≡ operand_of st src }
    ensures content { IsContent result }
    ensures among { (b : List ℕ) → IsContentAmong b result }
{
    match src {
        Operand::Var(var) => Content::Copy(number_of(var)),
        Operand::Imm(number) => Content::Wide(Value::Const(word_of(number))),
    }
}

// The content of four bytes.
fn half_content(site: &Site, state: &State, src: Operand) -> Content
    ensures is { result ≡ Content.Narrow (narrow32 (operand_of (abstract_of state.now) src)) }
    ensures content { IsContent result }
    ensures among { Fits site.now.bounds.now state.now
        → IsContentAmong site.now.bounds.now result }
{
    state_form(site, state);
    low_bits_are_sound();
    Content::Narrow(narrow32(operand_known(state, src).value))
}

// What is known of bytes that are written from an operand.
pub fn content_of(site: &Site, state: &State, size: u8, src: Operand) -> Content
    requires size { IsWordSize size }
    ensures size { content_size result ≡ slot_size size }
    ensures source { content_source result ≡ stored_source size src }
    ensures value { content_value (stored_value size (operand_of (abstract_of state.now) src)) result
        ≡ stored_value size (operand_of (abstract_of state.now) src) }
    ensures content { IsContent result }
    ensures among { Fits site.now.bounds.now state.now
        → IsContentAmong site.now.bounds.now result }
{
    if size == 8 {
        whole_content(src)
    } else if size == 4 {
        half_content(site, state, src)
    } else {
        Content::Nothing
    }
}
