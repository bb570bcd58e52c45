//! How an instruction transfers control, and whether it may trap.

ghost use Rattle.std.specs.Prelude.{◌≡◌};
ghost use Rattle.vw_insn.specs.Effect.{way, may_trap};
ghost use Rattle.vw_effect.specs.Meaning.{way_of};

use vw_insn::Insn;

/// The kinds of instruction that a sandbox treats differently, by how they transfer control.
#[derive(Clone, Copy, Debug, PartialEq, Eq)]
pub enum Way {
    /// On, or to another place in the function.
    Ordinary,
    /// A return.
    Return,
    /// A call of an address that the instruction names.
    Direct,
    /// A call of an address that a register or memory holds.
    Indirect,
}

/// How an instruction transfers control.
pub fn way_of(insn: &Insn) -> Way
    ensures { way_of result ≡ way insn.now }
{
    match *insn {
        Insn::Ret => Way::Return,
        Insn::Call { .. } => Way::Direct,
        Insn::CallInd { .. } => Way::Indirect,
        _ => Way::Ordinary,
    }
}

/// Whether an instruction may trap for a reason that is left open: a quotient that has no room (SDM
/// volume 2, "DIV"), an operand of 16 bytes that is not aligned, or a floating-point exception (SDM
/// volume 1, 11.5).
pub fn may_trap(insn: &Insn) -> bool
    ensures { result ≡ may_trap insn.now }
{
    match *insn {
        Insn::MulDiv { .. } | Insn::Xmm { .. } => true,
        _ => false,
    }
}
