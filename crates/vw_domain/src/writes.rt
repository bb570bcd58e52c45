ghost use Rattle.std.specs.Prelude.{◌≡◌, ◌<◌, true, None, Some, OnOk, OnErr};
ghost use Rattle.vw_names.specs.Division.{IsDivision};
ghost use Rattle.vw_domain.specs.Abstract.{IsFrameSpot, value_of, is_there};
ghost use Rattle.vw_domain.specs.Registers.{IsRegister};
ghost use Rattle.vw_domain.specs.State.{IsState};
ghost use Rattle.vw_domain.specs.Writes.{FollowsPlace, WritesRegister};

use crate::cells::Cell;
use crate::forgets::{forget_in_row, forget_in_slots, remaining_register};
use crate::gone::Gone;
use crate::parts::Parts;
use crate::reads::{is_one, named_place, value_of};
use crate::registers::Register;
use vw_bits::OutOfMemory;
use vw_names::Spot;
use vw_stack::Offset;

// Puts a number that no other place has into a register.
pub(crate) fn write(parts: &mut Parts, register: u8, known: Register)
    requires register { register < 17 }
    requires parts { IsState parts.old }
    ensures { WritesRegister register None known parts.old parts.new }
{
    let gone = Gone::Register(register);
    parts.classes.leave(Spot::Reg(register));
    forget_in_row(&mut parts.registers, gone);
    forget_in_slots(&mut parts.slots, gone);
    parts.registers[register as usize] = Cell::of(remaining_register(known, gone));
}

// Puts a place into the class of another; where both are one place it stays in its class. Where memory is refused, the
// parts stay as they were.
pub(crate) fn follow_place(parts: &mut Parts, place: Spot, source: Spot) -> Result<(), OutOfMemory>
    requires place { IsFrameSpot place }
    requires source { IsFrameSpot source }
    requires there { is_there parts.old source ≡ true }
    ensures ok { OnOk result (FollowsPlace parts.old place source parts.new.classes) }
    ensures others { parts.new ≡ record parts.old { classes = parts.new.classes } }
    ensures division { IsDivision parts.old.classes → IsDivision parts.new.classes }
    ensures err { OnErr result (parts.new ≡ parts.old) }
{
    if is_one(place, source) {
        return Ok(());
    }
    let from = named_place(parts, source);
    let to = named_place(parts, place);
    parts.classes.follow(to, from)?;
    Ok(())
}

// Puts the number of a place into a register. Where memory is refused, the parts stay as they were.
pub(crate) fn copy_place(
    parts: &mut Parts,
    register: u8,
    source: Spot,
    offset: Offset,
) -> Result<(), OutOfMemory>
    requires register { register < 17 }
    requires source { IsFrameSpot source }
    requires there { is_there parts.old source ≡ true }
    requires parts { IsState parts.old }
    ensures ok { OnOk result (WritesRegister register (Some source)
        (record { offset = offset; value = value_of parts.old source }) parts.old parts.new) }
    ensures err { OnErr result (parts.new ≡ parts.old) }
{
    let gone = Gone::Register(register);
    let value = value_of(parts, source);
    follow_place(parts, Spot::Reg(register), source)?;
    forget_in_row(&mut parts.registers, gone);
    forget_in_slots(&mut parts.slots, gone);
    let known = Register { offset, value };
    parts.registers[register as usize] = Cell::of(remaining_register(known, gone));
    Ok(())
}
