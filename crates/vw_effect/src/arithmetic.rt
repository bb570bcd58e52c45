//! Results of arithmetic on numbers of a width, and the flags that they set.

ghost use Rattle.std.specs.Prelude.{◌≡◌, true, ◌+◌, ◌-◌, ◌^◌, ◌<◌, ◌&&◌, nat_le, ◌%◌, ◌==◌, count_ones};
ghost use Rattle.vw_insn.specs.Words.{low};
ghost use Rattle.vw_insn.specs.Listed.{IsNarrow, IsWide};
ghost use Rattle.vw_insn.specs.Arithmetic.{modulus, top_bit, has_top_bit, differ, extended, wrapped_sum, wrapped_difference, flags_of, flags_of_sum, flags_of_difference, flags_of_bits, alu_result, alu_flags, masked_count, shift_result, unary_flags};
ghost use Rattle.vw_effect.specs.Meaning.{status_of};

use crate::Flags;
use vw_insn::{AluOp, Count, ShiftOp, UnaryOp, Width};

fn top_bit(w: Width) -> u64
    ensures { result ≡ top_bit w }
{
    match w {
        Width::W8 => 0x80,
        Width::W16 => 0x8000,
        Width::W32 => 0x8000_0000,
        Width::W64 => 0x8000_0000_0000_0000,
    }
}

fn has_top_bit(w: Width, x: u64) -> bool
    ensures { result ≡ has_top_bit w x }
{
    top_bit(w) <= x
}

fn differ(a: bool, b: bool) -> bool
    ensures { result ≡ differ a b }
{
    if a { !b } else { b }
}

fn both(a: bool, b: bool) -> bool
    ensures { result ≡ a && b }
{
    a && b
}

// 2^64 less two to the power of the width: the bits above it.
fn bits_above(w: Width) -> u64
    ensures value { result ≡ 2 ^ 64 - modulus w }
    ensures rest { result + modulus w ≡ 2 ^ 64 }
{
    match w {
        Width::W8 => 0xFFFF_FFFF_FFFF_FF00,
        Width::W16 => 0xFFFF_FFFF_FFFF_0000,
        Width::W32 => 0xFFFF_FFFF_0000_0000,
        Width::W64 => 0,
    }
}

fn sign_extend(from: Width, to: Width, x: u64) -> u64
    requires fits { x < modulus from }
    requires narrow { IsNarrow from }
    requires wide { IsWide to }
    ensures value { result ≡ extended true from to x }
    ensures fits { result < modulus to }
{
    if has_top_bit(from, x) {
        to.low(x + bits_above(from))
    } else {
        x
    }
}

/// A number of width `from` extended to width `to`, by its sign where it is signed, else by zeros.
pub fn extend_number(signed: bool, from: Width, to: Width, x: u64) -> u64
    requires fits { x < modulus from }
    requires narrow { IsNarrow from }
    requires wide { IsWide to }
    ensures value { result ≡ extended signed from to x }
    ensures fits { result < modulus to }
{
    if signed { sign_extend(from, to, x) } else { x }
}

fn wrapped_sum(x: u64, y: u64) -> u64
    ensures { result ≡ wrapped_sum x y }
{
    x.wrapping_add(y)
}

fn wrapped_difference(x: u64, y: u64) -> u64
    ensures { result ≡ wrapped_difference x y }
{
    x.wrapping_sub(y)
}

fn has_even_ones(byte: u64) -> bool
    ensures { result ≡ (count_ones byte % 2 == 0) }
{
    byte.count_ones() % 2 == 0
}

// The flags by a result; carry and overflow are given.
fn flags_of(w: Width, carry: bool, overflow: bool, number: u64) -> Flags
    ensures { status_of result ≡ flags_of w carry overflow number }
{
    Flags {
        carry,
        parity: has_even_ones(number % 0x100),
        is_zero: number == 0,
        sign: has_top_bit(w, number),
        overflow,
    }
}

fn modulus(w: Width) -> u128
    ensures { result ≡ modulus w }
{
    match w {
        Width::W8 => 0x100,
        Width::W16 => 0x1_0000,
        Width::W32 => 0x1_0000_0000,
        Width::W64 => 0x1_0000_0000_0000_0000,
    }
}

// Whether the sum reaches two to the power of the width.
fn carries(w: Width, x: u64, y: u64) -> bool
    ensures { result ≡ nat_le (modulus w) (x + y) }
{
    modulus(w) <= u128::from(x) + u128::from(y)
}

/// The flags after ADD.
pub fn flags_of_sum(w: Width, x: u64, y: u64) -> Flags
    ensures { status_of result ≡ flags_of_sum w x y }
{
    let number = w.low(wrapped_sum(x, y));
    let signs_differ = differ(has_top_bit(w, x), has_top_bit(w, y));
    let sign_changes = differ(has_top_bit(w, x), has_top_bit(w, number));
    flags_of(
        w,
        carries(w, x, y),
        both(!signs_differ, sign_changes),
        number,
    )
}

/// The flags after SUB and CMP.
pub fn flags_of_difference(w: Width, x: u64, y: u64) -> Flags
    ensures { status_of result ≡ flags_of_difference w x y }
{
    let number = w.low(wrapped_difference(x, y));
    let signs_differ = differ(has_top_bit(w, x), has_top_bit(w, y));
    let sign_changes = differ(has_top_bit(w, x), has_top_bit(w, number));
    flags_of(w, x < y, both(signs_differ, sign_changes), number)
}

/// The flags after AND, OR, XOR and TEST.
pub fn flags_of_bits(w: Width, number: u64) -> Flags
    ensures { status_of result ≡ flags_of_bits w number }
{
    flags_of(w, false, false, number)
}

/// The result of an operation, of which an instruction takes the low bits; that of ADC and SBB is
/// the chosen one.
pub fn alu_result(op: AluOp, chosen: u64, x: u64, y: u64) -> u64
    ensures { result ≡ alu_result op chosen x y }
{
    match op {
        AluOp::Add => wrapped_sum(x, y),
        AluOp::Or => x | y,
        AluOp::Adc | AluOp::Sbb => chosen,
        AluOp::And => x & y,
        AluOp::Sub | AluOp::Cmp => wrapped_difference(x, y),
        AluOp::Xor => x ^ y,
    }
}

/// The flags after an operation; those after ADC and SBB are the chosen ones.
pub fn alu_flags(op: AluOp, w: Width, chosen: Flags, x: u64, y: u64) -> Flags
    ensures { status_of result ≡ alu_flags op w (status_of chosen) x y }
{
    match op {
        AluOp::Add => flags_of_sum(w, x, y),
        AluOp::Or => flags_of_bits(w, x | y),
        AluOp::Adc | AluOp::Sbb => chosen,
        AluOp::And => flags_of_bits(w, x & y),
        AluOp::Sub | AluOp::Cmp => flags_of_difference(w, x, y),
        AluOp::Xor => flags_of_bits(w, x ^ y),
    }
}

fn masked_count(w: Width, n: u8) -> u8
    ensures count { result ≡ masked_count w n }
    ensures few { result < 64 }
{
    match w {
        Width::W64 => n % 64,
        Width::W8 | Width::W16 | Width::W32 => n % 32,
    }
}

/// The result of a shift or rotate, of which an instruction takes the low bits: that of SHL by a
/// constant, else the chosen one.
pub fn shift_result(op: ShiftOp, w: Width, by: Count, chosen: u64, x: u64) -> u64
    ensures { result ≡ shift_result op w by chosen x }
{
    match (op, by) {
        (ShiftOp::Shl, Count::Imm(n)) => x << masked_count(w, n),
        _ => chosen,
    }
}

/// The flags after NOT, which changes none, and after NEG, INC and DEC, which are the chosen ones.
pub fn unary_flags(op: UnaryOp, flags: Flags, chosen: Flags) -> Flags
    ensures { status_of result ≡ unary_flags op (status_of flags) (status_of chosen) }
{
    match op {
        UnaryOp::Not => flags,
        UnaryOp::Neg | UnaryOp::Inc | UnaryOp::Dec => chosen,
    }
}
