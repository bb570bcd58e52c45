ghost use Rattle.std.specs.Prelude.{◌≡◌};
ghost use Rattle.vw_insn.specs.Text.{extend_text, widen_text, sign_text, stem, condition};

use crate::names::{alu_name, bits_name, cond_name, muldiv_name, shift_name, unary_name};
use crate::{Insn, Width};

/// The mnemonic up to its condition.
pub fn stem_name(insn: &Insn) -> &'static str
    ensures { result.now ≡ stem insn.now }
{
    match *insn {
        Insn::Alu { op, .. } => alu_name(op),
        Insn::Push { .. } => "push",
        Insn::Pop { .. } => "pop",
        Insn::Extend { signed, from, .. } => extend_name(signed, from),
        Insn::Imul { .. } => "imul",
        Insn::Jcc { .. } => "j",
        Insn::Jump { .. } | Insn::JumpInd { .. } => "jmp",
        Insn::Call { .. } | Insn::CallInd { .. } => "call",
        Insn::Ret => "ret",
        Insn::Leave => "leave",
        Insn::Test { .. } => "test",
        Insn::Xchg { .. } => "xchg",
        Insn::Mov { .. } | Insn::MovImm64 { .. } => "mov",
        Insn::Lea { .. } => "lea",
        Insn::Nop => "nop",
        Insn::Widen { w } => widen_name(w),
        Insn::SignA { w } => sign_name(w),
        Insn::Shift { op, .. } => shift_name(op),
        Insn::Unary { op, .. } => unary_name(op),
        Insn::MulDiv { op, .. } => muldiv_name(op),
        Insn::Ud2 => "ud2",
        Insn::Cmov { .. } => "cmov",
        Insn::Set { .. } => "set",
        Insn::Bits { op, .. } => bits_name(op),
        Insn::Bt { .. } => "bt",
        Insn::Bswap { .. } => "bswap",
        Insn::Endbr => "endbr64",
        Insn::Xmm { row, wide, .. } => row.name(wide),
    }
}

/// The condition that ends a mnemonic, or nothing.
pub fn condition_name(insn: &Insn) -> &'static str
    ensures { result.now ≡ condition insn.now }
{
    match *insn {
        Insn::Jcc { cond, .. } | Insn::Cmov { cond, .. } | Insn::Set { cond, .. } => {
            cond_name(cond)
        }
        _ => "",
    }
}

fn extend_name(signed: bool, from: Width) -> &'static str
    ensures { result.now ≡ extend_text signed from }
{
    match (signed, from) {
        (false, _) => "movzx",
        (true, Width::W32) => "movsxd",
        (true, _) => "movsx",
    }
}

fn widen_name(w: Width) -> &'static str
    ensures { result.now ≡ widen_text w }
{
    match w {
        Width::W32 => "cwde",
        Width::W64 => "cdqe",
        _ => "cbw",
    }
}

fn sign_name(w: Width) -> &'static str
    ensures { result.now ≡ sign_text w }
{
    match w {
        Width::W32 => "cdq",
        Width::W64 => "cqo",
        _ => "cwd",
    }
}
