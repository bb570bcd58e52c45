ghost use Rattle.std.specs.Prelude.{◌≡◌, ◌<◌, pos, ◌+ℤ◌};
ghost use Rattle.vw_insn.specs.Listed.{IsListed, IsXmmOperand};
ghost use Rattle.vw_insn.specs.Text.{place_operand, source_operand, count_operand, general, general_operand, xmm_operand, no_operand, one_operand, two_operands, three_operands, xmm_operands, imul_operands, operands_of};

use crate::{Count, HighReg, Insn, Mem, Place, Reg, Source, Width, XmmOperand, XmmRole, word_of};

/// An operand as it is printed.
#[derive(Clone, Copy)]
pub enum Operand {
    Reg(Width, Reg),
    High(HighReg),
    Mem(Mem),
    /// The bits of an immediate at its width.
    Imm(u64),
    /// A direct target: its offset from the function's start.
    Target(i64),
    Cl,
    /// An XMM register by number.
    Xmm(u8),
}

/// The operands of an instruction, from the left.
#[derive(Clone, Copy)]
pub struct Operands {
    pub first: Option<Operand>,
    pub second: Option<Operand>,
    pub third: Option<Operand>,
}

impl Operands {
    fn none() -> Operands
        ensures { result ≡ no_operand }
    {
        Operands {
            first: None,
            second: None,
            third: None,
        }
    }

    fn one(first: Operand) -> Operands
        ensures { result ≡ one_operand first }
    {
        Operands {
            first: Some(first),
            second: None,
            third: None,
        }
    }

    fn two(first: Operand, second: Operand) -> Operands
        ensures { result ≡ two_operands first second }
    {
        Operands {
            first: Some(first),
            second: Some(second),
            third: None,
        }
    }

    fn three(first: Operand, second: Operand, third: Operand) -> Operands
        ensures { result ≡ three_operands first second third }
    {
        Operands {
            first: Some(first),
            second: Some(second),
            third: Some(third),
        }
    }
}

/// The operands of an instruction, the destination first. Direct targets count from `next`, the
/// offset of the next instruction.
pub fn printed_operands(insn: &Insn, next: u32) -> Operands
    requires { IsListed insn.now }
    ensures { result ≡ operands_of insn.now next }
{
    match *insn {
        Insn::Alu { w, dst, src, .. } | Insn::Mov { w, dst, src } => {
            Operands::two(printed_place(w, dst), printed_source(w, src))
        }
        Insn::Push { src } => Operands::one(printed_source(Width::W64, src)),
        Insn::Pop { dst } => Operands::one(Operand::Reg(Width::W64, dst)),
        Insn::Extend {
            from,
            to,
            dst,
            src,
            ..
        } => Operands::two(Operand::Reg(to, dst), printed_place(from, src)),
        Insn::Imul { w, dst, src, imm } => {
            printed_imul(Operand::Reg(w, dst), printed_place(w, src), w, imm)
        }
        Insn::Jcc { rel, .. } => printed_target(next, rel),
        Insn::Jump { rel } => printed_target(next, rel),
        Insn::Call { rel } => printed_target(next, rel),
        Insn::CallInd { src } | Insn::JumpInd { src } => {
            Operands::one(printed_place(Width::W64, src))
        }
        Insn::Test { w, a, b } => Operands::two(printed_place(w, a), printed_source(w, b)),
        Insn::Xchg { w, a, b } => Operands::two(Operand::Reg(w, a), Operand::Reg(w, b)),
        Insn::MovImm64 { dst, imm } => {
            Operands::two(Operand::Reg(Width::W64, dst), Operand::Imm(imm))
        }
        Insn::Lea { w, dst, mem } => Operands::two(Operand::Reg(w, dst), Operand::Mem(mem)),
        Insn::Shift { w, dst, by, .. } => {
            Operands::two(printed_place(w, dst), printed_count(by))
        }
        Insn::Unary { w, dst, .. } => Operands::one(printed_place(w, dst)),
        Insn::MulDiv { w, src, .. } => Operands::one(printed_place(w, src)),
        Insn::Cmov { w, dst, src, .. } | Insn::Bits { w, dst, src, .. } => {
            Operands::two(Operand::Reg(w, dst), printed_place(w, src))
        }
        Insn::Set { dst, .. } => Operands::one(printed_place(Width::W8, dst)),
        Insn::Bt { w, a, bit } => Operands::two(Operand::Reg(w, a), printed_source(w, bit)),
        Insn::Bswap { w, dst } => Operands::one(Operand::Reg(w, dst)),
        Insn::Xmm {
            row,
            wide,
            reg,
            rm,
            imm,
        } => printed_xmm(row.role(), wide, reg, rm, imm),
        Insn::Ret
        | Insn::Leave
        | Insn::Nop
        | Insn::Widen { .. }
        | Insn::SignA { .. }
        | Insn::Ud2
        | Insn::Endbr => Operands::none(),
    }
}

fn printed_target(next: u32, rel: i32) -> Operands
    ensures { result ≡ one_operand (Operand.Target (pos next +ℤ rel)) }
{
    Operands::one(Operand::Target(i64::from(next) + i64::from(rel)))
}

fn printed_place(w: Width, place: Place) -> Operand
    ensures { result ≡ place_operand w place }
{
    match place {
        Place::Reg(reg) => Operand::Reg(w, reg),
        Place::High(high) => Operand::High(high),
        Place::Mem(mem) => Operand::Mem(mem),
    }
}

fn printed_source(w: Width, source: Source) -> Operand
    ensures { result ≡ source_operand w source }
{
    match source {
        Source::Place(place) => printed_place(w, place),
        Source::Imm(imm) => Operand::Imm(w.low(word_of(imm))),
    }
}

fn printed_count(by: Count) -> Operand
    ensures { result ≡ count_operand by }
{
    match by {
        Count::Cl => Operand::Cl,
        Count::Imm(count) => Operand::Imm(u64::from(count)),
    }
}

fn printed_imul(first: Operand, second: Operand, w: Width, imm: Option<i32>) -> Operands
    ensures { result ≡ imul_operands first second w imm }
{
    match imm {
        None => Operands::two(first, second),
        Some(imm) => Operands::three(first, second, Operand::Imm(w.low(word_of(imm)))),
    }
}

fn printed_xmm(role: XmmRole, wide: bool, reg: u8, rm: XmmOperand, imm: u8) -> Operands
    requires reg { reg < 16 }
    requires rm { IsXmmOperand rm }
    ensures { result ≡ xmm_operands role wide reg rm imm }
{
    match role {
        XmmRole::Load | XmmRole::Compare => Operands::two(Operand::Xmm(reg), printed_rm(rm)),
        XmmRole::Store => Operands::two(printed_rm(rm), Operand::Xmm(reg)),
        XmmRole::FromGeneral | XmmRole::MoveFromGeneral => {
            Operands::two(Operand::Xmm(reg), printed_general(wide, rm))
        }
        XmmRole::ToGeneral => Operands::two(general_reg(wide, reg), printed_rm(rm)),
        XmmRole::MoveToGeneral => Operands::two(printed_general(wide, rm), Operand::Xmm(reg)),
        XmmRole::Rounding => Operands::three(
            Operand::Xmm(reg),
            printed_rm(rm),
            Operand::Imm(u64::from(imm)),
        ),
    }
}

fn printed_rm(rm: XmmOperand) -> Operand
    ensures { result ≡ xmm_operand rm }
{
    match rm {
        XmmOperand::Reg(number) => Operand::Xmm(number),
        XmmOperand::Mem(mem) => Operand::Mem(mem),
    }
}

fn printed_general(wide: bool, rm: XmmOperand) -> Operand
    requires { IsXmmOperand rm }
    ensures { result ≡ general_operand wide rm }
{
    match rm {
        XmmOperand::Reg(number) => general_reg(wide, number),
        XmmOperand::Mem(mem) => Operand::Mem(mem),
    }
}

fn general_reg(wide: bool, number: u8) -> Operand
    requires { number < 16 }
    ensures { result ≡ general wide number }
{
    let reg = Reg::from_number(number);
    if wide {
        Operand::Reg(Width::W64, reg)
    } else {
        Operand::Reg(Width::W32, reg)
    }
}
