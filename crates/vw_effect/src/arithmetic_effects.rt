//! What arithmetic, shifts, multiplication and scans of bits do.

ghost use Rattle.std.specs.Prelude.{◌≡◌};
ghost use Rattle.vw_insn.specs.Words.{number};
ghost use Rattle.vw_effect.specs.Meaning.{IsAfter};

use crate::arithmetic::{alu_flags, alu_result, flags_of_bits, shift_result, unary_flags};
use crate::before::Before;
use crate::building::{leave_with, write_to};
use crate::registers::{place_word, put_bits, put_results, source_word};
use crate::{After, Transfer};
use vw_insn::{AluOp, BitsOp, Count, Insn, MulDivOp, Place, Reg, ShiftOp, Source, UnaryOp, Width};

/// ADD, OR, ADC, SBB, AND, SUB, XOR, CMP.
pub fn alu(before: &Before<'_>, op: AluOp, w: Width, dst: Place, src: Source) -> After
    ensures { IsAfter (Insn.Alu op w dst src) before.now result }
{
    let x = w.low(place_word(before.registers, before.loaded, dst));
    let y = w.low(source_word(before.registers, before.loaded, src));
    let flags = alu_flags(op, w, before.open.flags, x, y);
    let value = w.low(alu_result(op, before.open.numbers[0], x, y));
    match op {
        AluOp::Cmp => leave_with(before.registers, flags, Transfer::Next),
        AluOp::Add | AluOp::Or | AluOp::Adc | AluOp::Sbb | AluOp::And | AluOp::Sub | AluOp::Xor =>
            write_to(before, flags, w, dst, value),
    }
}

/// TEST.
pub fn test(before: &Before<'_>, w: Width, a: Place, b: Source) -> After
    ensures { IsAfter (Insn.Test w a b) before.now result }
{
    let x = w.low(place_word(before.registers, before.loaded, a));
    let y = w.low(source_word(before.registers, before.loaded, b));
    leave_with(before.registers, flags_of_bits(w, x & y), Transfer::Next)
}

/// ROL, ROR, SHL, SHR, SAR.
pub fn shift(before: &Before<'_>, op: ShiftOp, w: Width, dst: Place, by: Count) -> After
    ensures { IsAfter (Insn.Shift op w dst by) before.now result }
{
    let x = w.low(place_word(before.registers, before.loaded, dst));
    let value = w.low(shift_result(op, w, by, before.open.numbers[0], x));
    write_to(before, before.open.flags, w, dst, value)
}

/// NOT, NEG, INC, DEC.
pub fn unary(before: &Before<'_>, op: UnaryOp, w: Width, dst: Place) -> After
    ensures { IsAfter (Insn.Unary op w dst) before.now result }
{
    let flags = unary_flags(op, before.flags, before.open.flags);
    let value = w.low(before.open.numbers[0]);
    write_to(before, flags, w, dst, value)
}

/// IMUL with two or three operands.
pub fn imul(before: &Before<'_>, w: Width, dst: Reg, src: Place, imm: Option<i32>) -> After
    ensures { IsAfter (Insn.Imul w dst src imm) before.now result }
{
    let value = w.low(before.open.numbers[0]);
    write_to(before, before.open.flags, w, Place::Reg(dst), value)
}

/// MUL, IMUL, DIV, IDIV with one operand.
pub fn mul_div(before: &Before<'_>, op: MulDivOp, w: Width, src: Place) -> After
    ensures { IsAfter (Insn.MulDiv op w src) before.now result }
{
    let mut left = *before.registers;
    put_results(&mut left, w, before.open.numbers[0], before.open.numbers[1]);
    leave_with(&left, before.open.flags, Transfer::Next)
}

/// BSF, BSR, POPCNT, TZCNT, LZCNT.
pub fn bits(before: &Before<'_>, op: BitsOp, w: Width, dst: Reg, src: Place) -> After
    ensures { IsAfter (Insn.Bits op w dst src) before.now result }
{
    let mut left = *before.registers;
    put_bits(&mut left, op, w, dst, before.open.numbers[0]);
    leave_with(&left, before.open.flags, Transfer::Next)
}

/// BT.
pub fn bt(before: &Before<'_>, w: Width, a: Reg, bit: Source) -> After
    ensures { IsAfter (Insn.Bt w a bit) before.now result }
{
    leave_with(before.registers, before.open.flags, Transfer::Next)
}

/// Any number of a width in a register: CBW, CWDE, CDQE, CWD, CDQ, CQO and BSWAP.
pub fn open_register(before: &Before<'_>, w: Width, dst: Reg) -> After
    ensures bswap { IsAfter (Insn.Bswap w dst) before.now result }
    ensures widen { number dst ≡ 0 → IsAfter (Insn.Widen w) before.now result }
    ensures sign { number dst ≡ 2 → IsAfter (Insn.SignA w) before.now result }
{
    let value = w.low(before.open.numbers[0]);
    write_to(before, before.flags, w, Place::Reg(dst), value)
}
