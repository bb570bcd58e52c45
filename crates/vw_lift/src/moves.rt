//! Moves, addresses and the stack.

ghost use Rattle.std.specs.Prelude.{◌≡◌, ◌+◌, ◌<◌, ◌≤◌, ◌++◌, length, pos};
ghost use Rattle.vw_lift.specs.Lifted.{copied, set_to, mov_steps, lea_step, extend_step, exchanged, pushed, popped};

use crate::operands::{fetch_source, leave_open, load_tmp, operand_of};
use vw_insn::{Mem, Place, Reg, Source, Width, word_of};
use vw_stmt::{Operand, Stmt, Stmts, Var};

fn copy_step(w: Width, dst: Reg, src: Var) -> Stmt
    ensures { result ≡ copied w dst src }
{
    let dst = Var::Reg(dst);
    match w {
        Width::W64 => Stmt::Copy { dst, src },
        Width::W32 => Stmt::Narrow {
            dst,
            src,
            from: Width::W32,
            to: Width::W64,
            signed: false,
        },
        Width::W8 | Width::W16 => Stmt::Open { dst, w },
    }
}

fn set_to(w: Width, dst: Reg, imm: i32) -> Stmt
    ensures { result ≡ set_to w dst imm }
{
    let dst = Var::Reg(dst);
    match w {
        Width::W64 => Stmt::Set {
            dst,
            c: word_of(imm),
        },
        Width::W32 => Stmt::Set {
            dst,
            c: Width::W32.low(word_of(imm)),
        },
        Width::W8 | Width::W16 => Stmt::Open { dst, w },
    }
}

fn add_mov_to_register(stmts: &mut Stmts, w: Width, dst: Reg, source: Source)
    requires { length stmts.old < 7 }
    ensures list { stmts.new ≡ stmts.old ++ mov_steps w (Place.Reg dst) source }
    ensures few { length stmts.new ≤ length stmts.old + 1 }
{
    match source {
        Source::Place(Place::Reg(src)) => stmts.add(copy_step(w, dst, Var::Reg(src))),
        Source::Place(Place::High(_)) => stmts.add(copy_step(w, dst, Var::Tmp)),
        Source::Place(Place::Mem(mem)) => stmts.add(Stmt::Load {
            dst: Var::Reg(dst),
            size: w.bytes(),
            to: w,
            signed: false,
            mem,
        }),
        Source::Imm(imm) => stmts.add(set_to(w, dst, imm)),
    }
}

/// Adds what MOV does; memory is loaded straight to a register.
pub fn add_mov(stmts: &mut Stmts, w: Width, dst: Place, source: Source)
    requires { length stmts.old < 2 }
    ensures list { stmts.new ≡ stmts.old ++ mov_steps w dst source }
    ensures few { length stmts.new ≤ length stmts.old + 3 }
{
    match dst {
        Place::Reg(reg) => add_mov_to_register(stmts, w, reg, source),
        Place::High(_) => {
            fetch_source(stmts, w, source);
            leave_open(stmts, w, dst);
        }
        Place::Mem(mem) => {
            fetch_source(stmts, w, source);
            stmts.add(Stmt::Store {
                mem,
                size: w.bytes(),
                src: operand_of(source),
            });
        }
    }
}

/// What LEA does: the address at 64 bits, else any number of the width.
pub fn lea_step(w: Width, dst: Reg, mem: Mem) -> Stmt
    ensures { result ≡ lea_step w dst mem }
{
    let dst = Var::Reg(dst);
    match w {
        Width::W64 => Stmt::Lea { dst, mem },
        Width::W8 | Width::W16 | Width::W32 => Stmt::Open { dst, w },
    }
}

/// What MOVSX, MOVSXD or MOVZX does; memory is loaded straight to the register.
pub fn extend_step(signed: bool, from: Width, to: Width, dst: Reg, src: Place) -> Stmt
    ensures { result ≡ extend_step signed from to dst src }
{
    let dst = Var::Reg(dst);
    match src {
        Place::Mem(mem) => Stmt::Load {
            dst,
            size: from.bytes(),
            to,
            signed,
            mem,
        },
        Place::Reg(reg) => Stmt::Narrow {
            dst,
            src: Var::Reg(reg),
            from,
            to,
            signed,
        },
        Place::High(_) => Stmt::Narrow {
            dst,
            src: Var::Tmp,
            from,
            to,
            signed,
        },
    }
}

/// Adds what XCHG of two registers does.
pub fn add_exchange(stmts: &mut Stmts, w: Width, a: Reg, b: Reg)
    requires { length stmts.old < 2 }
    ensures list { stmts.new ≡ stmts.old ++ exchanged w a b }
    ensures few { length stmts.new ≤ length stmts.old + 3 }
{
    let first = Var::Reg(a);
    let second = Var::Reg(b);
    match w {
        Width::W64 => {
            stmts.add(Stmt::Copy {
                dst: Var::Tmp,
                src: first,
            });
            stmts.add(Stmt::Copy {
                dst: first,
                src: second,
            });
            stmts.add(Stmt::Copy {
                dst: second,
                src: Var::Tmp,
            });
        }
        Width::W8 | Width::W16 | Width::W32 => {
            stmts.add(Stmt::Open { dst: first, w });
            stmts.add(Stmt::Open { dst: second, w });
        }
    }
}

fn add_to_rsp(minus: bool) -> Stmt
    ensures { result ≡ Stmt.Sum (Var.Reg Reg.Rsp) (Var.Reg Reg.Rsp) (Operand.Imm (pos 8)) minus }
{
    let rsp = Var::Reg(Reg::Rsp);
    Stmt::Sum {
        dst: rsp,
        a: rsp,
        b: Operand::Imm(8),
        minus,
    }
}

/// Adds a push: the word is written 8 below rsp, which then falls by 8.
pub fn push(stmts: &mut Stmts, src: Operand)
    requires { length stmts.old < 3 }
    ensures list { stmts.new ≡ stmts.old ++ pushed src }
    ensures few { length stmts.new ≤ length stmts.old + 2 }
{
    stmts.add(Stmt::Store {
        mem: Mem::below_rsp(),
        size: 8,
        src,
    });
    stmts.add(add_to_rsp(true));
}

/// Adds a pop: the word at rsp is read, rsp rises by 8, and then the register is written.
pub fn pop(stmts: &mut Stmts, dst: Reg)
    requires { length stmts.old < 3 }
    ensures list { stmts.new ≡ stmts.old ++ popped dst }
    ensures few { length stmts.new ≤ length stmts.old + 3 }
{
    stmts.add(load_tmp(Width::W64, Mem::at_rsp()));
    stmts.add(add_to_rsp(false));
    stmts.add(Stmt::Copy {
        dst: Var::Reg(dst),
        src: Var::Tmp,
    });
}
