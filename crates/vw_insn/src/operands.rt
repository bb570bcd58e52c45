ghost use Rattle.std.specs.Prelude.{◌≡◌};
ghost use Rattle.vw_insn.specs.Effect.{at_rsp, below_rsp};

use crate::{HighReg, Reg};

/// The base of a memory operand (SDM volume 1, 3.7.5).
#[derive(Clone, Copy, Debug, PartialEq, Eq)]
pub enum Base {
    /// No base: the address is the scaled index and the displacement.
    None,
    /// The 64 bits of a register.
    Reg(Reg),
    /// The address of the next instruction (SDM volume 2, 2.2.1.6). There is no index beside it.
    Rip,
}

/// A memory operand. Its address is the base, the index times its scale and the displacement,
/// summed modulo 2^64 (SDM volume 1, 3.7.5).
#[derive(Clone, Copy, Debug, PartialEq, Eq)]
pub struct Mem {
    pub base: Base,
    /// The index register, which is never `Rsp`, and its scale, which is 1, 2, 4 or 8.
    pub index: Option<(Reg, u8)>,
    /// The displacement in bytes, sign-extended to 64 bits.
    pub disp: i32,
}

impl Mem {
    /// The word at the top of the stack.
    pub fn at_rsp() -> Mem
        ensures { result ≡ at_rsp }
    {
        Mem {
            base: Base::Reg(Reg::Rsp),
            index: None,
            disp: 0,
        }
    }

    /// Where a push writes: the eight bytes below the top of the stack.
    pub fn below_rsp() -> Mem
        ensures { result ≡ below_rsp }
    {
        Mem {
            base: Base::Reg(Reg::Rsp),
            index: None,
            disp: -8,
        }
    }
}

/// A general register or memory: what the r/m field of ModRM names (SDM volume 2, 2.1.3). The
/// instruction says how wide it is.
#[derive(Clone, Copy, Debug, PartialEq, Eq)]
pub enum Place {
    /// The low bits of a register.
    Reg(Reg),
    /// Bits 8 to 15 of one of the first four registers, at width 8 alone.
    High(HighReg),
    Mem(Mem),
}

/// An operand that is only read.
#[derive(Clone, Copy, Debug, PartialEq, Eq)]
pub enum Source {
    Place(Place),
    /// An immediate, sign-extended to the width of the operation.
    Imm(i32),
}

/// By how much a shift or a rotate moves its operand (SDM volume 2, "SAL/SAR/SHL/SHR").
#[derive(Clone, Copy, Debug, PartialEq, Eq)]
pub enum Count {
    /// By the low byte of `Rcx`.
    Cl,
    /// By an immediate byte, 0 to 255, before the processor masks it.
    Imm(u8),
}

/// The second operand of an instruction on XMM registers.
#[derive(Clone, Copy, Debug, PartialEq, Eq)]
pub enum XmmOperand {
    /// The number, 0 to 15, of an XMM register, or of a general register where the instruction has
    /// one at this place.
    Reg(u8),
    Mem(Mem),
}
