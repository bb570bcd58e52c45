ghost use Rattle.std.specs.Prelude.{◌≡◌, length};
ghost use Rattle.vw_lattice.specs.Entries.{IsAscending};
ghost use Rattle.vw_domain.specs.Writes.{forgotten_register, ForgetsRow, ForgetsSlots};

use crate::cells::Cell;
use crate::gone::{Gone, remaining_value};
use crate::registers::Register;
use vw_lattice::MapOf;
use vw_values::Value;

// What is still known of a register once registers are written.
pub(crate) fn remaining_register(register: Register, gone: Gone) -> Register
    ensures { result ≡ forgotten_register gone register }
{
    Register {
        offset: register.offset,
        value: remaining_value(register.value, gone),
    }
}

// Leaves of each register's value what it still says once registers are written.
pub(crate) fn forget_in_row(row: &mut [Cell], gone: Gone)
    requires { length row.old ≡ 17 }
    ensures { ForgetsRow gone row.old row.new }
{
    for i in 0..17 {
        row[i].forget(gone);
    }
}

// The same for each slot's value.
pub(crate) fn forget_in_slots(slots: &mut MapOf<Value>, gone: Gone)
    requires { IsAscending slots.old }
    ensures { ForgetsSlots gone slots.old slots.new }
{
    for i in 0..slots.len() {
        match slots.nth(i) {
            None => return,
            Some((_key, value)) => {
                let remaining = remaining_value(*value, gone);
                slots.set_nth(i, remaining);
            }
        }
    }
}
