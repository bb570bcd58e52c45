ghost use Rattle.std.specs.Prelude.{◌≡◌, ◌+◌, ◌<◌, ◌≤◌, [], ◌∷◌, ◌++◌, length};
ghost use Rattle.vw_insn.specs.Listed.{IsListed};
ghost use Rattle.vw_lift.specs.Lifted.{steps, flow_of, lifted};
ghost use Rattle.vw_lift.specs.Simulation.{HasWord, IsInForm, IsRunOf};

use crate::arithmetic::{add_alu, add_products, add_shift, add_unary};
use crate::laws::{effect_is_a_run, lists_are_in_form};
use crate::moves::{add_exchange, add_mov, extend_step, lea_step, pop, push};
use crate::operands::{ANY_FLAGS, fetch, fetch_source, leave_open, operand_of, var_of};
use crate::xmm::{add_comparison, add_general, add_touch};
use std::alloc::Global;
use vw_insn::{Insn, Place, Reg, Width};
use vw_stmt::{Flow, Operand, Stmt, Stmts, Var};

fn flow_of(insn: Insn) -> Flow
    ensures { result ≡ flow_of insn }
{
    match insn {
        Insn::Jcc { cond, rel } => Flow::Branch { cond, rel },
        Insn::Jump { rel } => Flow::Jump { rel },
        Insn::JumpInd { src } => Flow::JumpReg { src: var_of(src) },
        Insn::Call { rel } => Flow::Call { rel },
        Insn::CallInd { src } => Flow::CallReg { src: var_of(src) },
        Insn::Ret => Flow::Ret,
        Insn::Ud2 => Flow::Stop,
        _ => Flow::Next,
    }
}

// Any flags, and any number of `w` bits in a register.
fn open_with_flags(stmts: &mut Stmts, w: Width, reg: Reg)
    requires { length stmts.old < 4 }
    ensures list { stmts.new ≡ stmts.old ++ Stmt.Flags None ∷ Stmt.Open (Var.Reg reg) w ∷ [] }
    ensures few { length stmts.new ≤ length stmts.old + 2 }
{
    stmts.add(ANY_FLAGS);
    open_register(stmts, w, reg);
}

fn open_register(stmts: &mut Stmts, w: Width, reg: Reg)
    requires { length stmts.old < 7 }
    ensures list { stmts.new ≡ stmts.old ++ Stmt.Open (Var.Reg reg) w ∷ [] }
    ensures few { length stmts.new ≤ length stmts.old + 1 }
{
    stmts.add(Stmt::Open {
        dst: Var::Reg(reg),
        w,
    });
}

fn add_steps(stmts: &mut Stmts, insn: Insn)
    requires listed { IsListed insn }
    requires empty { stmts.old ≡ [] }
    ensures list { stmts.new ≡ steps insn }
    ensures few { length stmts.new < 8 }
    ensures word { HasWord insn }
{
    match insn {
        Insn::Alu { op, w, dst, src } => {
            fetch(stmts, w, dst);
            fetch_source(stmts, w, src);
            add_alu(stmts, op, w, dst, src);
        }
        Insn::Push { src } => {
            fetch_source(stmts, Width::W64, src);
            push(stmts, operand_of(src));
        }
        Insn::Pop { dst } => pop(stmts, dst),
        Insn::Extend {
            signed,
            from,
            to,
            dst,
            src,
        } => stmts.add(extend_step(signed, from, to, dst, src)),
        Insn::Imul {
            w,
            dst,
            src,
            imm: _,
        } => {
            fetch(stmts, w, src);
            open_with_flags(stmts, w, dst);
        }
        Insn::Leave => {
            stmts.add(Stmt::Copy {
                dst: Var::Reg(Reg::Rsp),
                src: Var::Reg(Reg::Rbp),
            });
            pop(stmts, Reg::Rbp);
        }
        Insn::CallInd { src } | Insn::JumpInd { src } => fetch(stmts, Width::W64, src),
        Insn::Test { w, a, b } => {
            fetch(stmts, w, a);
            fetch_source(stmts, w, b);
            stmts.add(ANY_FLAGS);
        }
        Insn::Xchg { w, a, b } => add_exchange(stmts, w, a, b),
        Insn::Mov { w, dst, src } => add_mov(stmts, w, dst, src),
        Insn::MovImm64 { dst, imm } => stmts.add(Stmt::Set {
            dst: Var::Reg(dst),
            c: imm,
        }),
        Insn::Lea { w, dst, mem } => stmts.add(lea_step(w, dst, mem)),
        Insn::Widen { w } => open_register(stmts, w, Reg::Rax),
        Insn::SignA { w } => open_register(stmts, w, Reg::Rdx),
        Insn::Shift { op, w, dst, by } => {
            fetch(stmts, w, dst);
            add_shift(stmts, op, w, dst, by);
        }
        Insn::Unary { op, w, dst } => {
            fetch(stmts, w, dst);
            add_unary(stmts, op, w, dst);
        }
        Insn::MulDiv { op: _, w, src } => {
            fetch(stmts, w, src);
            stmts.add(ANY_FLAGS);
            add_products(stmts, w);
        }
        Insn::Cmov {
            cond: _,
            w,
            dst,
            src,
        } => {
            fetch(stmts, w, src);
            stmts.add(Stmt::Choose {
                dst: Var::Reg(dst),
                w,
                a: Var::Reg(dst),
                b: Operand::Var(var_of(src)),
            });
        }
        Insn::Set { cond: _, dst } => leave_open(stmts, Width::W8, dst),
        Insn::Bits { op: _, w, dst, src } => {
            fetch(stmts, w, src);
            open_with_flags(stmts, Width::W64, dst);
        }
        Insn::Bt { .. } => stmts.add(ANY_FLAGS),
        Insn::Bswap { w, dst } => open_register(stmts, w, dst),
        Insn::Xmm {
            row,
            wide,
            reg,
            rm,
            imm: _,
        } => {
            add_touch(stmts, row, wide, rm);
            let role = row.role();
            add_general(stmts, role, wide, reg, rm);
            add_comparison(stmts, role);
        }
        Insn::Jcc { .. }
        | Insn::Jump { .. }
        | Insn::Call { .. }
        | Insn::Ret
        | Insn::Nop
        | Insn::Ud2
        | Insn::Endbr => {}
    }
}

/// The statements of an instruction, in order: at most eight, of which the last is a `Flow` and no
/// other is. They say at most what the instruction does (SDM volume 2, "Operation" of each): they
/// compute exactly what the analysis of a sandbox rests on, and leave other results and flags open.
/// `insn` is one that an opcode row can give. `at` is its address and `len` its length in bytes;
/// the list does not depend on them, since an operand on rip and a relative target count from the
/// next instruction. Takes no memory: `alloc` is kept alone.
pub fn lift(alloc: Global, insn: &Insn, at: u64, len: u32) -> Stmts
    requires { IsListed insn.now }
    ensures list { result ≡ lifted insn.now }
    ensures form { IsInForm result }
    ensures effect { IsRunOf result insn.now }
{
    let mut stmts = Stmts::new(alloc);
    let insn = *insn;
    add_steps(&mut stmts, insn);
    stmts.add(Stmt::Flow(flow_of(insn)));
    lists_are_in_form();
    effect_is_a_run();
    stmts
}
