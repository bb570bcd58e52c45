ghost use Rattle.std.specs.Prelude.{◌≡◌};
ghost use Rattle.vw_rows.specs.Views.{parts_view};
ghost use Rattle.vw_rows.specs.Meaning.{register_in, memory_in, is_given, source_or, third_operand, count_by, mov_immediate, is_wide, built, insn_of};

use crate::parts::Parts;
use crate::shape::shape_of;
use crate::{Immediate, Kind, Row, Shape};
use vw_insn::{Base, Count, Insn, Mem, Place, Reg, Source, Width};

/// The instruction that the parts are by the row, at the width (SDM volume 2, chapters 3 to 5).
pub fn insn_of(row: Row, w: Width, parts: &Parts<'_>) -> Insn
    ensures { result ≡ insn_of row w (parts_view parts.now) }
{
    built(row.kind, row.immediate, shape_of(row, w, parts))
}

/// The instruction of a kind, with an immediate of this form, and these operands.
pub fn built(kind: Kind, i: Immediate, s: Shape) -> Insn
    ensures { result ≡ built kind i s }
{
    match kind {
        Kind::Alu(op) => Insn::Alu {
            op,
            w: s.w,
            dst: s.first,
            src: source_or(is_given(i), s.second, s.signed),
        },
        Kind::Push => Insn::Push {
            src: source_or(is_given(i), s.first, s.signed),
        },
        Kind::Pop => Insn::Pop {
            dst: register_in(s.first),
        },
        Kind::Extend(signed, from) => Insn::Extend {
            signed,
            from,
            to: s.w,
            dst: register_in(s.first),
            src: s.second,
        },
        Kind::Imul => Insn::Imul {
            w: s.w,
            dst: register_in(s.first),
            src: s.second,
            imm: third_operand(is_given(i), s.signed),
        },
        Kind::Test => Insn::Test {
            w: s.w,
            a: s.first,
            b: source_or(is_given(i), s.second, s.signed),
        },
        Kind::Xchg => Insn::Xchg {
            w: s.w,
            a: register_in(s.first),
            b: register_in(s.second),
        },
        Kind::Mov => Insn::Mov {
            w: s.w,
            dst: s.first,
            src: source_or(is_given(i), s.second, s.signed),
        },
        Kind::MovImm => mov_immediate(s.w, s.first, s.signed, s.word),
        Kind::Lea => Insn::Lea {
            w: s.w,
            dst: register_in(s.first),
            mem: memory_in(s.second),
        },
        Kind::Shift(op) => Insn::Shift {
            op,
            w: s.w,
            dst: s.first,
            by: count_by(i, s.byte),
        },
        Kind::Unary(op) => Insn::Unary {
            op,
            w: s.w,
            dst: s.first,
        },
        Kind::MulDiv(op) => Insn::MulDiv {
            op,
            w: s.w,
            src: s.first,
        },
        Kind::Cmov(cond) => Insn::Cmov {
            cond,
            w: s.w,
            dst: register_in(s.first),
            src: s.second,
        },
        Kind::Set(cond) => Insn::Set { cond, dst: s.first },
        Kind::Bits(op) => Insn::Bits {
            op,
            w: s.w,
            dst: register_in(s.first),
            src: s.second,
        },
        Kind::Bt => Insn::Bt {
            w: s.w,
            a: register_in(s.first),
            bit: source_or(is_given(i), s.second, s.signed),
        },
        Kind::Bswap => Insn::Bswap {
            w: s.w,
            dst: register_in(s.first),
        },
        Kind::Xmm(row) => Insn::Xmm {
            row,
            wide: is_wide(s.w),
            reg: s.reg,
            rm: s.rm,
            imm: s.byte,
        },
        Kind::Widen => Insn::Widen { w: s.w },
        Kind::SignA => Insn::SignA { w: s.w },
        Kind::CallInd => Insn::CallInd { src: s.first },
        Kind::JumpInd => Insn::JumpInd { src: s.first },
        Kind::Jcc(cond) => Insn::Jcc {
            cond,
            rel: s.signed,
        },
        Kind::Jump => Insn::Jump { rel: s.signed },
        Kind::Call => Insn::Call { rel: s.signed },
        Kind::Ret => Insn::Ret,
        Kind::Leave => Insn::Leave,
        Kind::Nop => Insn::Nop,
        Kind::Ud2 => Insn::Ud2,
        Kind::Endbr => Insn::Endbr,
    }
}

fn register_in(place: Place) -> Reg
    ensures { result ≡ register_in place }
{
    match place {
        Place::Reg(r) => r,
        Place::High(_) | Place::Mem(_) => Reg::Rax,
    }
}

fn memory_in(place: Place) -> Mem
    ensures { result ≡ memory_in place }
{
    match place {
        Place::Mem(mem) => mem,
        Place::Reg(_) | Place::High(_) => Mem {
            base: Base::None,
            index: None,
            disp: 0,
        },
    }
}

fn is_given(i: Immediate) -> bool
    ensures { result ≡ is_given i }
{
    match i {
        Immediate::None | Immediate::OpcodeByte => false,
        _ => true,
    }
}

fn source_or(is_given: bool, operand: Place, n: i32) -> Source
    ensures { result ≡ source_or is_given operand n }
{
    if is_given {
        Source::Imm(n)
    } else {
        Source::Place(operand)
    }
}

fn third_operand(is_given: bool, n: i32) -> Option<i32>
    ensures { result ≡ third_operand is_given n }
{
    if is_given { Some(n) } else { None }
}

fn count_by(i: Immediate, n: u8) -> Count
    ensures { result ≡ count_by i n }
{
    match i {
        Immediate::Cl => Count::Cl,
        _ => Count::Imm(n),
    }
}

fn mov_immediate(w: Width, dst: Place, n: i32, word: u64) -> Insn
    ensures { result ≡ mov_immediate w dst n word }
{
    match w {
        Width::W64 => Insn::MovImm64 {
            dst: register_in(dst),
            imm: word,
        },
        Width::W8 | Width::W16 | Width::W32 => Insn::Mov {
            w,
            dst,
            src: Source::Imm(n),
        },
    }
}

fn is_wide(w: Width) -> bool
    ensures { result ≡ is_wide w }
{
    match w {
        Width::W64 => true,
        Width::W8 | Width::W16 | Width::W32 => false,
    }
}
