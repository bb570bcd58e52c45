//! What jumps, calls, returns and the stack's instructions do.

ghost use Rattle.vw_effect.specs.Meaning.{IsAfter};

use crate::addresses::{raise, relative};
use crate::before::Before;
use crate::building::{leave_with, push_word};
use crate::conditions::holds;
use crate::registers::{leave_frame, place_word, pop_into, put, source_word, word_in};
use crate::{After, Transfer};
use vw_insn::{Cond, Insn, Place, Reg, Source};

/// PUSH.
pub fn push(before: &Before<'_>, src: Source) -> After
    ensures { IsAfter (Insn.Push src) before.now result }
{
    let word = source_word(before.registers, before.loaded, src);
    push_word(before, word, Transfer::Next)
}

/// POP: rsp rises before the register is written, so that of rsp the word that was read stays.
pub fn pop(before: &Before<'_>, dst: Reg) -> After
    ensures { IsAfter (Insn.Pop dst) before.now result }
{
    let mut left = *before.registers;
    pop_into(&mut left, dst, before.loaded);
    leave_with(&left, before.flags, Transfer::Next)
}

/// LEAVE: rsp becomes rbp, and then rbp is popped.
pub fn leave(before: &Before<'_>) -> After
    ensures { IsAfter Insn.Leave before.now result }
{
    let mut left = *before.registers;
    leave_frame(&mut left, before.loaded);
    leave_with(&left, before.flags, Transfer::Next)
}

/// RET.
pub fn ret(before: &Before<'_>) -> After
    ensures { IsAfter Insn.Ret before.now result }
{
    let mut left = *before.registers;
    put(
        &mut left,
        Reg::Rsp,
        raise(word_in(before.registers, Reg::Rsp)),
    );
    leave_with(&left, before.flags, Transfer::Back(before.loaded))
}

/// Jcc.
pub fn jcc(before: &Before<'_>, cond: Cond, rel: i32) -> After
    ensures { IsAfter (Insn.Jcc cond rel) before.now result }
{
    if holds(cond, before.flags) {
        let to = relative(before.next, rel);
        leave_with(before.registers, before.flags, Transfer::To(to))
    } else {
        leave_with(before.registers, before.flags, Transfer::Next)
    }
}

/// JMP to a relative address.
pub fn jump(before: &Before<'_>, rel: i32) -> After
    ensures { IsAfter (Insn.Jump rel) before.now result }
{
    let to = relative(before.next, rel);
    leave_with(before.registers, before.flags, Transfer::To(to))
}

/// JMP to the address that a place holds.
pub fn jump_indirect(before: &Before<'_>, src: Place) -> After
    ensures { IsAfter (Insn.JumpInd src) before.now result }
{
    let to = place_word(before.registers, before.loaded, src);
    leave_with(before.registers, before.flags, Transfer::To(to))
}

/// CALL of a relative address.
pub fn call(before: &Before<'_>, rel: i32) -> After
    ensures { IsAfter (Insn.Call rel) before.now result }
{
    let to = relative(before.next, rel);
    push_word(before, before.next, Transfer::Enter(to))
}

/// CALL of the address that a place holds: the target is the one before the push.
pub fn call_indirect(before: &Before<'_>, src: Place) -> After
    ensures { IsAfter (Insn.CallInd src) before.now result }
{
    let to = place_word(before.registers, before.loaded, src);
    push_word(before, before.next, Transfer::Enter(to))
}

/// NOP and ENDBR64.
pub fn nop(before: &Before<'_>) -> After
    ensures nop { IsAfter Insn.Nop before.now result }
    ensures endbr { IsAfter Insn.Endbr before.now result }
{
    leave_with(before.registers, before.flags, Transfer::Next)
}

/// UD2.
pub fn stop(before: &Before<'_>) -> After
    ensures { IsAfter Insn.Ud2 before.now result }
{
    leave_with(before.registers, before.flags, Transfer::Stop)
}
