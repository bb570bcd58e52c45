//! Instructions on XMM registers.

ghost use Rattle.std.specs.Prelude.{◌≡◌, ◌+◌, ◌<◌, ◌≤◌, [], ◌∷◌, ◌++◌, length};
ghost use Rattle.vw_insn.specs.Listed.{IsXmmOperand};
ghost use Rattle.vw_insn.specs.Words.{register};
ghost use Rattle.vw_lift.specs.Lifted.{width_by_wide, touched, general_open, xmm_compared};

use crate::operands::ANY_FLAGS;
use vw_insn::{Reg, Width, XmmOperand, XmmRole, XmmRow};
use vw_stmt::{Stmt, Stmts, Var};

fn width_by_wide(wide: bool) -> Width
    ensures { result ≡ width_by_wide wide }
{
    if wide { Width::W64 } else { Width::W32 }
}

/// Adds the access of an XMM instruction with an operand in memory.
pub fn add_touch(stmts: &mut Stmts, row: XmmRow, wide: bool, rm: XmmOperand)
    requires { length stmts.old < 2 }
    ensures list { stmts.new ≡ stmts.old ++ touched row wide rm }
    ensures few { length stmts.new ≤ length stmts.old + 1 }
{
    match rm {
        XmmOperand::Reg(_) => {}
        XmmOperand::Mem(mem) => stmts.add(Stmt::Touch {
            mem,
            size: row.size(wide),
            write: row.is_store(),
        }),
    }
}

fn open_register(stmts: &mut Stmts, wide: bool, number: u8)
    requires number { number < 16 }
    requires room { length stmts.old < 3 }
    ensures list { stmts.new
        ≡ stmts.old ++ Stmt.Open (Var.Reg (register number)) (width_by_wide wide) ∷ [] }
    ensures few { length stmts.new ≤ length stmts.old + 1 }
{
    stmts.add(Stmt::Open {
        dst: Var::Reg(Reg::from_number(number)),
        w: width_by_wide(wide),
    });
}

/// Adds the general register that an XMM instruction writes, where it writes one.
pub fn add_general(stmts: &mut Stmts, role: XmmRole, wide: bool, reg: u8, rm: XmmOperand)
    requires number { reg < 16 }
    requires operand { IsXmmOperand rm }
    requires room { length stmts.old < 3 }
    ensures list { stmts.new ≡ stmts.old ++ general_open role wide reg rm }
    ensures few { length stmts.new ≤ length stmts.old + 1 }
{
    match role {
        XmmRole::ToGeneral => open_register(stmts, wide, reg),
        XmmRole::MoveToGeneral => match rm {
            XmmOperand::Reg(number) => open_register(stmts, wide, number),
            XmmOperand::Mem(_) => {}
        },
        _ => {}
    }
}

/// Adds any flags where an XMM instruction compares.
pub fn add_comparison(stmts: &mut Stmts, role: XmmRole)
    requires { length stmts.old < 4 }
    ensures list { stmts.new ≡ stmts.old ++ xmm_compared role }
    ensures few { length stmts.new ≤ length stmts.old + 1 }
{
    match role {
        XmmRole::Compare => stmts.add(ANY_FLAGS),
        _ => {}
    }
}
