//! The conditions of jumps, moves and sets.

ghost use Rattle.std.specs.Prelude.{◌≡◌};
ghost use Rattle.vw_insn.specs.Conditions.{is_less, holds};
ghost use Rattle.vw_effect.specs.Meaning.{status_of};

use crate::Flags;
use vw_insn::Cond;

fn is_less(flags: Flags) -> bool
    ensures { result ≡ is_less (status_of flags) }
{
    if flags.sign {
        !flags.overflow
    } else {
        flags.overflow
    }
}

/// Whether a condition holds under the flags (SDM volume 1, appendix B, "EFLAGS Condition Codes").
pub fn holds(cond: Cond, flags: Flags) -> bool
    ensures { result ≡ holds cond (status_of flags) }
{
    match cond {
        Cond::O => flags.overflow,
        Cond::No => !flags.overflow,
        Cond::B => flags.carry,
        Cond::Ae => !flags.carry,
        Cond::E => flags.is_zero,
        Cond::Ne => !flags.is_zero,
        Cond::Be => flags.carry || flags.is_zero,
        Cond::A => !(flags.carry || flags.is_zero),
        Cond::S => flags.sign,
        Cond::Ns => !flags.sign,
        Cond::P => flags.parity,
        Cond::Np => !flags.parity,
        Cond::L => is_less(flags),
        Cond::Ge => !is_less(flags),
        Cond::Le => flags.is_zero || is_less(flags),
        Cond::G => !(flags.is_zero || is_less(flags)),
    }
}
