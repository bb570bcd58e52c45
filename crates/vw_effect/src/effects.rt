//! What one instruction does.

ghost use Rattle.vw_insn.specs.Listed.{IsListed};
ghost use Rattle.vw_effect.specs.Meaning.{IsAfter, IsEffect};

use crate::arithmetic_effects::{alu, bits, bt, imul, mul_div, open_register, shift, test, unary};
use crate::before::Before;
use crate::control_effects::{
    call, call_indirect, jcc, jump, jump_indirect, leave, nop, pop, push, ret, stop,
};
use crate::move_effects::{cmov, extend, lea, mov, mov_word, set, xchg};
use crate::xmm_effects::xmm;
use crate::{After, Flags, Open};
use vw_insn::{Insn, Reg};

fn after(insn: Insn, before: &Before<'_>) -> After
    requires { IsListed insn }
    ensures { IsAfter insn before.now result }
{
    match insn {
        Insn::Alu { op, w, dst, src } => alu(before, op, w, dst, src),
        Insn::Push { src } => push(before, src),
        Insn::Pop { dst } => pop(before, dst),
        Insn::Extend {
            signed,
            from,
            to,
            dst,
            src,
        } => extend(before, signed, from, to, dst, src),
        Insn::Imul { w, dst, src, imm } => imul(before, w, dst, src, imm),
        Insn::Jcc { cond, rel } => jcc(before, cond, rel),
        Insn::Jump { rel } => jump(before, rel),
        Insn::Call { rel } => call(before, rel),
        Insn::Ret => ret(before),
        Insn::Leave => leave(before),
        Insn::CallInd { src } => call_indirect(before, src),
        Insn::JumpInd { src } => jump_indirect(before, src),
        Insn::Test { w, a, b } => test(before, w, a, b),
        Insn::Xchg { w, a, b } => xchg(before, w, a, b),
        Insn::Mov { w, dst, src } => mov(before, w, dst, src),
        Insn::MovImm64 { dst, imm } => mov_word(before, dst, imm),
        Insn::Lea { w, dst, mem } => lea(before, w, dst, mem),
        Insn::Nop | Insn::Endbr => nop(before),
        Insn::Widen { w } => open_register(before, w, Reg::Rax),
        Insn::SignA { w } => open_register(before, w, Reg::Rdx),
        Insn::Shift { op, w, dst, by } => shift(before, op, w, dst, by),
        Insn::Unary { op, w, dst } => unary(before, op, w, dst),
        Insn::MulDiv { op, w, src } => mul_div(before, op, w, src),
        Insn::Ud2 => stop(before),
        Insn::Cmov { cond, w, dst, src } => cmov(before, cond, w, dst, src),
        Insn::Set { cond, dst } => set(before, cond, dst),
        Insn::Bits { op, w, dst, src } => bits(before, op, w, dst, src),
        Insn::Bt { w, a, bit } => bt(before, w, a, bit),
        Insn::Bswap { w, dst } => open_register(before, w, dst),
        Insn::Xmm {
            row,
            wide,
            reg,
            rm,
            imm,
        } => xmm(before, row, wide, reg, rm, imm),
    }
}

/// What an instruction, which an opcode row can give, does from these registers and flags, once it
/// has loaded a number (SDM volume 2, "Operation" of each instruction). `next` is the address of
/// the next instruction. `loaded` is the number that its read gave; where it reads nothing, and for
/// instructions on XMM registers, any number will do. `choice` stands for the results and flags
/// that the definition leaves open. A read is made before anything is written.
pub fn effect(
    insn: &Insn,
    next: u64,
    registers: &[u64; 16],
    flags: Flags,
    loaded: u64,
    choice: &Open,
) -> After
    requires { IsListed insn.now }
    ensures { IsEffect insn.now next registers.now flags loaded choice.now result }
{
    let before = Before {
        next,
        registers,
        flags,
        loaded,
        open: choice,
    };
    after(*insn, &before)
}
