//! What moves, extensions and exchanges do.

ghost use Rattle.std.specs.Prelude.{◌≡◌, ◌<◌, ◌^◌, if◌then◌else◌};
ghost use Rattle.vw_insn.specs.Listed.{IsNarrow, IsWide};
ghost use Rattle.vw_effect.specs.Meaning.{IsAfter};

use crate::addresses::address;
use crate::arithmetic::extend_number;
use crate::before::Before;
use crate::building::{leave_with, write_to};
use crate::conditions::holds;
use crate::registers::{place_word, put, put_places, source_word, word_in};
use crate::{After, Transfer};
use vw_insn::{Cond, Insn, Mem, Place, Reg, Source, Width};

/// MOV.
pub fn mov(before: &Before<'_>, w: Width, dst: Place, src: Source) -> After
    ensures { IsAfter (Insn.Mov w dst src) before.now result }
{
    let value = w.low(source_word(before.registers, before.loaded, src));
    write_to(before, before.flags, w, dst, value)
}

/// MOV of 64 immediate bits.
pub fn mov_word(before: &Before<'_>, dst: Reg, imm: u64) -> After
    ensures { IsAfter (Insn.MovImm64 dst imm) before.now result }
{
    let mut left = *before.registers;
    put(&mut left, dst, imm);
    leave_with(&left, before.flags, Transfer::Next)
}

/// MOVSX, MOVSXD, MOVZX.
pub fn extend(
    before: &Before<'_>,
    signed: bool,
    from: Width,
    to: Width,
    dst: Reg,
    src: Place,
) -> After
    requires narrow { IsNarrow from }
    requires wide { IsWide to }
    ensures { IsAfter (Insn.Extend signed from to dst src) before.now result }
{
    let x = from.low(place_word(before.registers, before.loaded, src));
    let value = extend_number(signed, from, to, x);
    write_to(before, before.flags, to, Place::Reg(dst), value)
}

/// LEA: the address is cut to the width.
pub fn lea(before: &Before<'_>, w: Width, dst: Reg, mem: Mem) -> After
    ensures { IsAfter (Insn.Lea w dst mem) before.now result }
{
    let value = w.low(address(before.next, before.registers, mem));
    write_to(before, before.flags, w, Place::Reg(dst), value)
}

/// XCHG of two registers.
pub fn xchg(before: &Before<'_>, w: Width, a: Reg, b: Reg) -> After
    ensures { IsAfter (Insn.Xchg w a b) before.now result }
{
    let x = w.low(word_in(before.registers, a));
    let y = w.low(word_in(before.registers, b));
    let mut left = *before.registers;
    put_places(&mut left, w, a, y, b, x);
    leave_with(&left, before.flags, Transfer::Next)
}

/// CMOVcc: the register is written also where the condition fails, so that 32 bits clear its upper
/// half.
pub fn cmov(before: &Before<'_>, cond: Cond, w: Width, dst: Reg, src: Place) -> After
    ensures { IsAfter (Insn.Cmov cond w dst src) before.now result }
{
    let word = if holds(cond, before.flags) {
        place_word(before.registers, before.loaded, src)
    } else {
        word_in(before.registers, dst)
    };
    write_to(before, before.flags, w, Place::Reg(dst), w.low(word))
}

fn one_if(is_true: bool) -> u64
    ensures value { result ≡ (if is_true then 1 else 0) }
    ensures fits { result < 2 ^ 8 }
{
    if is_true { 1 } else { 0 }
}

/// SETcc.
pub fn set(before: &Before<'_>, cond: Cond, dst: Place) -> After
    ensures { IsAfter (Insn.Set cond dst) before.now result }
{
    let value = one_if(holds(cond, before.flags));
    write_to(before, before.flags, Width::W8, dst, value)
}
