//! What comparisons leave in the flags.

ghost use Rattle.std.specs.Prelude.{◌≡◌, ◌<◌, OnOk};
ghost use Rattle.vw_insn.specs.Listed.{IsWide};
ghost use Rattle.vw_stmt.specs.Lifted.{IsFact};
ghost use Rattle.vw_domain.specs.Abstract.{abstract_of};
ghost use Rattle.vw_domain.specs.Changes.{set_flags};
ghost use Rattle.vw_domain.specs.State.{Fits};
ghost use Rattle.vw_domain.specs.Statements.{compared_with, flags_after};

use crate::Site;
use crate::registers::{number_of, operand_known};
use vw_bits::OutOfMemory;
use vw_domain::State;
use vw_insn::Width;
use vw_names::Spot;
use vw_stmt::Compare;
use vw_values::Value;

const WHOLE: u64 = 0x1_0000_0000;

// A comparison of register `a` with this number.
fn compare_number(
    site: &Site,
    state: &mut State,
    width: Width,
    a: u8,
    number: u64,
) -> Result<(), OutOfMemory>
    requires register { a < 17 }
    requires wide { IsWide width }
    ensures form { OnOk result (abstract_of state.new
        ≡ compared_with (abstract_of state.old) width a (Value.Const number)) }
    ensures fits { OnOk result
        (Fits site.now.bounds.now state.old → Fits site.now.bounds.now state.new) }
{
    match width {
        Width::W32 => {
            state.compare(Spot::Reg(a), 32, number % WHOLE)?;
            Ok(())
        }
        Width::W64 => {
            state.compare(Spot::Reg(a), 64, number)?;
            Ok(())
        }
        Width::W8 | Width::W16 => Ok(()),
    }
}

// A comparison of register `a` with a value tells something where that is a number.
fn compare(
    site: &Site,
    state: &mut State,
    width: Width,
    a: u8,
    value: Value,
) -> Result<(), OutOfMemory>
    requires register { a < 17 }
    requires wide { IsWide width }
    ensures form { OnOk result (abstract_of state.new
        ≡ compared_with (abstract_of state.old) width a value) }
    ensures fits { OnOk result
        (Fits site.now.bounds.now state.old → Fits site.now.bounds.now state.new) }
{
    match value {
        Value::Const(number) => compare_number(site, state, width, a, number),
        _ => {
            state.clear_flags();
            Ok(())
        }
    }
}

// Sets the flags as a comparison does, or to any where there is none.
pub fn set_flags(site: &Site, state: &mut State, fact: Option<Compare>) -> Result<(), OutOfMemory>
    requires lifted { IsFact fact }
    ensures form { OnOk result (abstract_of state.new
        ≡ flags_after (abstract_of state.old) fact) }
    ensures fits { OnOk result
        (Fits site.now.bounds.now state.old → Fits site.now.bounds.now state.new) }
{
    match fact {
        None => {
            state.clear_flags();
            Ok(())
        }
        Some(compared) => {
            let value = operand_known(state, compared.b).value;
            compare(site, state, compared.w, number_of(compared.a), value)?;
            Ok(())
        }
    }
}
