//! Arithmetic, shifts and what sets flags.

ghost use Rattle.std.specs.Prelude.{◌≡◌, ◌==◌, ◌+◌, ◌<◌, ◌≤◌, ◌++◌, length};
ghost use Rattle.vw_insn.specs.Words.{number};
ghost use Rattle.vw_lift.specs.Lifted.{is_itself, cancels, computed, alu_written, compared, compared_at, alu_steps, is_times_16, shift_steps, unary_steps, products};

use crate::operands::{ANY_FLAGS, leave_open, operand_of};
use vw_insn::{AluOp, Count, Place, Reg, ShiftOp, Source, UnaryOp, Width};
use vw_stmt::{Compare, Operand, Stmt, Stmts, Var};

fn same_register(reg: Reg, other: Reg) -> bool
    ensures { result ≡ (number reg == number other) }
{
    reg == other
}

fn is_itself(reg: Reg, source: Source) -> bool
    ensures { result ≡ is_itself reg source }
{
    match source {
        Source::Place(Place::Reg(other)) => same_register(reg, other),
        _ => false,
    }
}

fn cancels(op: AluOp, w: Width) -> bool
    ensures { result ≡ cancels op w }
{
    match op {
        AluOp::Xor | AluOp::Sub => match w {
            Width::W32 | Width::W64 => true,
            Width::W8 | Width::W16 => false,
        },
        _ => false,
    }
}

fn compute_step(op: AluOp, w: Width, reg: Reg, source: Source) -> Stmt
    ensures { result ≡ computed op w reg source }
{
    let dst = Var::Reg(reg);
    let b = operand_of(source);
    match (op, w) {
        (AluOp::Add, Width::W64) => Stmt::Sum {
            dst,
            a: dst,
            b,
            minus: false,
        },
        (AluOp::Sub, Width::W64) => Stmt::Sum {
            dst,
            a: dst,
            b,
            minus: true,
        },
        (AluOp::And, Width::W32 | Width::W64) => Stmt::And { dst, w, a: dst, b },
        _ => Stmt::Open { dst, w },
    }
}

fn add_written(stmts: &mut Stmts, op: AluOp, w: Width, dst: Place, source: Source)
    requires { length stmts.old < 4 }
    ensures list { stmts.new ≡ stmts.old ++ alu_written op w dst source }
    ensures few { length stmts.new ≤ length stmts.old + 2 }
{
    match dst {
        Place::Reg(reg) => {
            if cancels(op, w) && is_itself(reg, source) {
                stmts.add(Stmt::Set {
                    dst: Var::Reg(reg),
                    c: 0,
                });
            } else {
                stmts.add(compute_step(op, w, reg, source));
            }
        }
        Place::High(_) | Place::Mem(_) => leave_open(stmts, w, dst),
    }
}

fn comparison_of(w: Width, dst: Place, source: Source) -> Option<Compare>
    ensures { result ≡ compared w dst source }
{
    match dst {
        Place::Reg(reg) => Some(Compare {
            w,
            a: Var::Reg(reg),
            b: operand_of(source),
        }),
        Place::Mem(_) => match source {
            Source::Place(Place::Reg(reg)) => Some(Compare {
                w,
                a: Var::Tmp,
                b: Operand::Var(Var::Reg(reg)),
            }),
            Source::Place(_) => None,
            Source::Imm(imm) => Some(Compare {
                w,
                a: Var::Tmp,
                b: Operand::Imm(imm),
            }),
        },
        Place::High(_) => None,
    }
}

fn comparison_at(w: Width, dst: Place, source: Source) -> Option<Compare>
    ensures { result ≡ compared_at w dst source }
{
    match w {
        Width::W8 | Width::W16 => None,
        Width::W32 | Width::W64 => comparison_of(w, dst, source),
    }
}

/// Adds what an operation does once its operands were fetched: flags and, but for CMP, the result.
pub fn add_alu(stmts: &mut Stmts, op: AluOp, w: Width, dst: Place, source: Source)
    requires { length stmts.old < 3 }
    ensures list { stmts.new ≡ stmts.old ++ alu_steps op w dst source }
    ensures few { length stmts.new ≤ length stmts.old + 3 }
{
    match op {
        AluOp::Cmp => stmts.add(Stmt::Flags {
            fact: comparison_at(w, dst, source),
        }),
        _ => {
            stmts.add(ANY_FLAGS);
            add_written(stmts, op, w, dst, source);
        }
    }
}

fn is_times_16(op: ShiftOp, w: Width, by: Count) -> bool
    ensures { result ≡ is_times_16 op w by }
{
    match (op, w, by) {
        (ShiftOp::Shl, Width::W64, Count::Imm(count)) => count == 4,
        _ => false,
    }
}

/// Adds what a shift or rotate does once its operand was fetched: any flags and the result.
pub fn add_shift(stmts: &mut Stmts, op: ShiftOp, w: Width, dst: Place, by: Count)
    requires { length stmts.old < 2 }
    ensures list { stmts.new ≡ stmts.old ++ shift_steps op w dst by }
    ensures few { length stmts.new ≤ length stmts.old + 3 }
{
    stmts.add(ANY_FLAGS);
    match dst {
        Place::Reg(reg) => {
            if is_times_16(op, w, by) {
                stmts.add(Stmt::Shl { dst: Var::Reg(reg) });
            } else {
                stmts.add(Stmt::Open {
                    dst: Var::Reg(reg),
                    w,
                });
            }
        }
        Place::High(_) | Place::Mem(_) => leave_open(stmts, w, dst),
    }
}

/// Adds what NOT, NEG, INC or DEC does once its operand was fetched; NOT leaves the flags.
pub fn add_unary(stmts: &mut Stmts, op: UnaryOp, w: Width, dst: Place)
    requires { length stmts.old < 2 }
    ensures list { stmts.new ≡ stmts.old ++ unary_steps op w dst }
    ensures few { length stmts.new ≤ length stmts.old + 3 }
{
    match op {
        UnaryOp::Not => leave_open(stmts, w, dst),
        UnaryOp::Neg | UnaryOp::Inc | UnaryOp::Dec => {
            stmts.add(ANY_FLAGS);
            leave_open(stmts, w, dst);
        }
    }
}

/// Adds the results of MUL, IMUL, DIV and IDIV with one operand: ax at 8 bits, else rax and rdx.
pub fn add_products(stmts: &mut Stmts, w: Width)
    requires { length stmts.old < 3 }
    ensures list { stmts.new ≡ stmts.old ++ products w }
    ensures few { length stmts.new ≤ length stmts.old + 2 }
{
    let rax = Var::Reg(Reg::Rax);
    match w {
        Width::W8 => stmts.add(Stmt::Open {
            dst: rax,
            w: Width::W64,
        }),
        Width::W16 | Width::W32 | Width::W64 => {
            stmts.add(Stmt::Open { dst: rax, w });
            stmts.add(Stmt::Open {
                dst: Var::Reg(Reg::Rdx),
                w,
            });
        }
    }
}
