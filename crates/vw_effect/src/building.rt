//! What an instruction leaves, put together.

ghost use Rattle.std.specs.Prelude.{◌≡◌, ◌<◌};
ghost use Rattle.vw_insn.specs.Arithmetic.{modulus};
ghost use Rattle.vw_insn.specs.Effect.{going, writing, pushing, writes_place};
ghost use Rattle.vw_effect.specs.Meaning.{registers_of, status_of, writes_of, transfer_of, after_of};

use crate::addresses::{address, lower};
use crate::before::Before;
use crate::registers::{put, put_place, word_in};
use crate::{After, Flags, Transfer, Write};
use vw_insn::{Mem, Place, Reg, Width};

/// These registers and flags, with nothing written to memory.
pub fn leave_with(registers: &[u64; 16], flags: Flags, transfer: Transfer) -> After
    ensures { after_of result
        ≡ going (registers_of registers.now) (status_of flags) (transfer_of transfer) }
{
    After {
        registers: *registers,
        flags,
        write: None,
        transfer,
    }
}

fn writes_place(next: u64, registers: &[u64; 16], w: Width, dst: Place, x: u64) -> Option<Write>
    ensures { writes_of result ≡ writes_place next (registers_of registers.now) w dst x }
{
    match dst {
        Place::Mem(mem) => Some(Write {
            at: address(next, registers, mem),
            size: u32::from(w.bytes()),
            value: u128::from(x),
        }),
        Place::Reg(_) | Place::High(_) => None,
    }
}

/// Writes `x`, a number of this width, to a place.
pub fn write_to(before: &Before<'_>, flags: Flags, w: Width, dst: Place, x: u64) -> After
    requires { x < modulus w }
    ensures { after_of result
        ≡ writing before.now.next (registers_of before.now.registers.now) (status_of flags) w dst x }
{
    let mut left = *before.registers;
    put_place(&mut left, w, dst, x);
    After {
        registers: left,
        flags,
        write: writes_place(before.next, before.registers, w, dst, x),
        transfer: Transfer::Next,
    }
}

/// Pushes a word: it is written below the top of the stack, and then rsp falls by 8.
pub fn push_word(before: &Before<'_>, word: u64, transfer: Transfer) -> After
    ensures { after_of result
        ≡ pushing before.now.next (registers_of before.now.registers.now)
        (status_of before.now.flags) word (transfer_of transfer) }
{
    let mut left = *before.registers;
    put(
        &mut left,
        Reg::Rsp,
        lower(word_in(before.registers, Reg::Rsp)),
    );
    After {
        registers: left,
        flags: before.flags,
        write: Some(Write {
            at: address(before.next, before.registers, Mem::below_rsp()),
            size: 8,
            value: u128::from(word),
        }),
        transfer,
    }
}
