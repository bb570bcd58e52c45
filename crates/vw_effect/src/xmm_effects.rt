//! What instructions on XMM registers do to memory, general registers and flags.

ghost use Rattle.std.specs.Prelude.{◌≡◌, ℕ, ◌+◌, ◌*◌, ◌%◌, ◌^◌, ◌<◌, ◌⊎◌, slice_index};
ghost use Rattle.vw_insn.specs.Words.{put};
ghost use Rattle.vw_insn.specs.Listed.{IsXmmOperand};
ghost use Rattle.vw_insn.specs.XmmEffect.{by_wide, stored_bytes, xmm_registers, xmm_flags};
ghost use Rattle.vw_insn.specs.Effect.{writes_xmm};
ghost use Rattle.vw_effect.specs.Meaning.{registers_of, status_of, writes_of, IsAfter};

use crate::addresses::address;
use crate::before::Before;
use crate::{After, Flags, Transfer, Write};
use vw_insn::{Insn, XmmOperand, XmmRole, XmmRow};

// A general register in which `x` was written: 64 bits, or 32 that clear the upper half.
fn by_wide(wide: bool, x: u64) -> u64
    ensures { result ≡ by_wide wide x }
{
    if wide { x } else { x % 0x1_0000_0000 }
}

fn put_number(registers: &mut [u64; 16], n: u8, word: u64)
    requires { n < 16 }
    ensures { registers_of registers.new ≡ put (registers_of registers.old) n word }
{
    registers[usize::from(n)] = word;
}

fn put_xmm(
    registers: &mut [u64; 16],
    role: XmmRole,
    wide: bool,
    reg: u8,
    rm: XmmOperand,
    chosen: u64,
)
    requires number { reg < 16 }
    requires operand { IsXmmOperand rm }
    ensures { registers_of registers.new
        ≡ xmm_registers role wide reg rm (registers_of registers.old) chosen }
{
    match role {
        XmmRole::ToGeneral => put_number(registers, reg, by_wide(wide, chosen)),
        XmmRole::MoveToGeneral => match rm {
            XmmOperand::Reg(n) => put_number(registers, n, by_wide(wide, chosen)),
            XmmOperand::Mem(_) => {}
        },
        _ => {}
    }
}

fn xmm_flags(role: XmmRole, flags: Flags, chosen: Flags) -> Flags
    ensures { status_of result ≡ xmm_flags role (status_of flags) (status_of chosen) }
{
    match role {
        XmmRole::Compare => chosen,
        _ => flags,
    }
}

// The bytes of a store: those of two numbers, the first below, as many as it has.
fn stored_bytes(size: u32, first: u64, second: u64) -> u128
    requires { (size ≡ 4) ⊎ (size ≡ 8) ⊎ (size ≡ 16) }
    ensures { result ≡ (first + 2 ^ 64 * second) % 256 ^ size }
{
    let bytes = u128::from(first) + 0x1_0000_0000_0000_0000 * u128::from(second);
    match size {
        4 => bytes % 0x1_0000_0000,
        8 => bytes % 0x1_0000_0000_0000_0000,
        _ => bytes,
    }
}

fn writes_xmm(before: &Before<'_>, row: XmmRow, wide: bool, rm: XmmOperand) -> Option<Write>
    ensures { (numbers : ℕ → ℕ)
        → numbers 0 ≡ slice_index before.now.open.now.numbers 0
        → numbers 1 ≡ slice_index before.now.open.now.numbers 1
        → writes_of result
        ≡ writes_xmm before.now.next (registers_of before.now.registers.now) row wide rm numbers }
{
    match rm {
        XmmOperand::Mem(mem) => {
            if row.is_store() {
                let size = u32::from(row.size(wide));
                Some(Write {
                    at: address(before.next, before.registers, mem),
                    size,
                    value: stored_bytes(size, before.open.numbers[0], before.open.numbers[1]),
                })
            } else {
                None
            }
        }
        XmmOperand::Reg(_) => None,
    }
}

/// Instructions on XMM registers.
pub fn xmm(before: &Before<'_>, row: XmmRow, wide: bool, reg: u8, rm: XmmOperand, imm: u8) -> After
    requires number { reg < 16 }
    requires operand { IsXmmOperand rm }
    ensures { IsAfter (Insn.Xmm row wide reg rm imm) before.now result }
{
    let mut left = *before.registers;
    let role = row.role();
    put_xmm(&mut left, role, wide, reg, rm, before.open.numbers[0]);
    After {
        registers: left,
        flags: xmm_flags(role, before.flags, before.open.flags),
        write: writes_xmm(before, row, wide, rm),
        transfer: Transfer::Next,
    }
}
