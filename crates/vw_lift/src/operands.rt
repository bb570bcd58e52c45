//! How operands are fetched and written.

ghost use Rattle.std.specs.Prelude.{◌≡◌, ◌+◌, ◌<◌, ◌≤◌, ◌++◌, length};
ghost use Rattle.vw_lift.specs.Lifted.{var_of, operand_of, load_tmp, fetched, fetched_source, left_open};

use vw_insn::{Mem, Place, Source, Width};
use vw_stmt::{Operand, Stmt, Stmts, Var};

/// Flags of which nothing is known.
pub const ANY_FLAGS: Stmt = Stmt::Flags { fact: None };

/// Where an operand is found once memory was loaded.
pub fn var_of(place: Place) -> Var
    ensures { result ≡ var_of place }
{
    match place {
        Place::Reg(reg) => Var::Reg(reg),
        Place::High(_) | Place::Mem(_) => Var::Tmp,
    }
}

/// A source as an operand, once memory was loaded.
pub fn operand_of(source: Source) -> Operand
    ensures { result ≡ operand_of source }
{
    match source {
        Source::Place(place) => Operand::Var(var_of(place)),
        Source::Imm(imm) => Operand::Imm(imm),
    }
}

/// Loads a number of a width to tmp.
pub fn load_tmp(w: Width, mem: Mem) -> Stmt
    ensures { result ≡ load_tmp w mem }
{
    Stmt::Load {
        dst: Var::Tmp,
        size: w.bytes(),
        to: w,
        signed: false,
        mem,
    }
}

/// Loads an operand in memory to tmp.
pub fn fetch(stmts: &mut Stmts, w: Width, place: Place)
    requires { length stmts.old < 2 }
    ensures list { stmts.new ≡ stmts.old ++ fetched w place }
    ensures few { length stmts.new ≤ length stmts.old + 1 }
{
    match place {
        Place::Reg(_) | Place::High(_) => {}
        Place::Mem(mem) => stmts.add(load_tmp(w, mem)),
    }
}

/// Loads a source in memory to tmp.
pub fn fetch_source(stmts: &mut Stmts, w: Width, source: Source)
    requires { length stmts.old < 2 }
    ensures list { stmts.new ≡ stmts.old ++ fetched_source w source }
    ensures few { length stmts.new ≤ length stmts.old + 1 }
{
    match source {
        Source::Place(place) => fetch(stmts, w, place),
        Source::Imm(_) => {}
    }
}

/// Leaves open what is written to an operand: any number of `w` bits.
pub fn leave_open(stmts: &mut Stmts, w: Width, place: Place)
    requires { length stmts.old < 4 }
    ensures list { stmts.new ≡ stmts.old ++ left_open w place }
    ensures few { length stmts.new ≤ length stmts.old + 2 }
{
    match place {
        Place::Reg(reg) => stmts.add(Stmt::Open {
            dst: Var::Reg(reg),
            w,
        }),
        Place::High(high) => stmts.add(Stmt::Open {
            dst: Var::Reg(high.register()),
            w: Width::W8,
        }),
        Place::Mem(mem) => {
            stmts.add(Stmt::Open { dst: Var::Tmp, w });
            stmts.add(Stmt::Store {
                mem,
                size: w.bytes(),
                src: Operand::Var(Var::Tmp),
            });
        }
    }
}
