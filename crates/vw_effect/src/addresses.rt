//! Addresses of operands in memory.

ghost use Rattle.std.specs.Prelude.{◌≡◌, ◌+◌, ◌-◌, ◌*◌, ◌%◌, ◌^◌};
ghost use Rattle.vw_insn.specs.Effect.{base_value, sum_of, address, relative, raised, lowered};
ghost use Rattle.vw_effect.specs.Meaning.{registers_of};

use crate::registers::word_in;
use vw_insn::{Base, Mem, Reg, word_of};

/// The word at which rbp points.
pub const AT_RBP: Mem = Mem {
    base: Base::Reg(Reg::Rbp),
    index: None,
    disp: 0,
};

fn base_value(next: u64, registers: &[u64; 16], base: Base) -> u64
    ensures { result ≡ base_value next (registers_of registers.now) base }
{
    match base {
        Base::None => 0,
        Base::Reg(reg) => word_in(registers, reg),
        Base::Rip => next,
    }
}

// start + index * scale + disp modulo 2^64.
fn scaled_sum(start: u64, index: u64, scale: u8, disp: u64) -> u64
    ensures { result ≡ (start + index * scale + disp) % 2 ^ 64 }
{
    start
        .wrapping_add(index.wrapping_mul(u64::from(scale)))
        .wrapping_add(disp)
}

fn sum_of(start: u64, registers: &[u64; 16], index: Option<(Reg, u8)>, disp: u64) -> u64
    ensures { result ≡ sum_of start (registers_of registers.now) index disp % 2 ^ 64 }
{
    match index {
        None => start.wrapping_add(disp),
        Some((reg, scale)) => scaled_sum(start, word_in(registers, reg), scale, disp),
    }
}

/// The address of a memory operand of the instruction before `next`, modulo 2^64.
pub fn address(next: u64, registers: &[u64; 16], mem: Mem) -> u64
    ensures { result ≡ address next (registers_of registers.now) mem }
{
    let start = base_value(next, registers, mem.base);
    sum_of(start, registers, mem.index, word_of(mem.disp))
}

/// The address of a relative target, which counts from the next instruction, modulo 2^64.
pub fn relative(next: u64, rel: i32) -> u64
    ensures { result ≡ relative next rel }
{
    next.wrapping_add(word_of(rel))
}

/// rsp after a pop of eight bytes.
pub fn raise(rsp: u64) -> u64
    ensures { result ≡ raised rsp }
{
    rsp.wrapping_add(8)
}

/// rsp after a push of eight bytes.
pub fn lower(rsp: u64) -> u64
    ensures { result ≡ lowered rsp }
{
    rsp.wrapping_sub(8)
}
