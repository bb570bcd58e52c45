//! What a choice stands for.

ghost use Rattle.std.specs.Prelude.{◌≡◌, ◌/◌, ◌%◌, ◌==◌, ◌<◌};
ghost use Rattle.vw_effect.specs.Meaning.{status_of, IsChosen};
ghost use Rattle.vw_machine.specs.Choices.{number_of, flags_in, open_of};

use crate::Choice;
use vw_effect::{Flags, Open};

// Whether the bit of this weight is 1.
fn has_bit(number: u8, weight: u8) -> bool
    requires { 0 < weight }
    ensures { result ≡ (number / weight % 2 == 1) }
{
    number / weight % 2 == 1
}

// The flags in bits 0 to 4.
pub(crate) fn flags_in(number: u8) -> Flags
    ensures { status_of result ≡ flags_in number }
{
    Flags {
        carry: has_bit(number, 1),
        parity: has_bit(number, 2),
        is_zero: has_bit(number, 4),
        sign: has_bit(number, 8),
        overflow: has_bit(number, 16),
    }
}

// The number at a place of a choice.
pub(crate) fn number_of(choice: &Choice, place: usize) -> u64
    requires { place < 10 }
    ensures { result ≡ number_of choice.now place }
{
    let number = choice.numbers[place];
    number
}

// What an instruction takes of a choice.
pub(crate) fn open_of(choice: &Choice) -> Open
    ensures { IsChosen result (open_of choice.now) }
{
    Open {
        numbers: [number_of(choice, 0), number_of(choice, 1)],
        flags: flags_in(choice.flags),
    }
}
