ghost use Rattle.std.specs.Prelude.{◌≡◌, ◌≤◌, length, List, OnOk, OnErr, IfOk};
ghost use Rattle.std.specs.List.{AllByRecursion};
ghost use Rattle.vw_stmt.specs.Lifted.{IsLifted};
ghost use Rattle.vw_domain.specs.Abstract.{abstract_of};
ghost use Rattle.vw_domain.specs.Operands.{index_of};
ghost use Rattle.vw_domain.specs.Addresses.{value_of};
ghost use Rattle.vw_domain.specs.State.{Fits};
ghost use Rattle.vw_domain.specs.Statements.{apply, applies, finish};
ghost use Rattle.vw_state.specs.Context.{Context, IsSite, site_at};
ghost use Rattle.vw_state.specs.Context.{equation_site};

use crate::Site;
use crate::copies::{copy_register, load, overwrite, store};
use crate::flags::set_flags;
use crate::puts::{address_known, chosen, masked, narrowed, opened, shifted, summed};
use crate::registers::{known_of, number_of, plain, put};
use vw_bits::OutOfMemory;
use vw_domain::State;
use vw_lattice::Lattice;
use vw_stmt::{Stmt, Var};
use vw_values::Value;

// Changes a state as a statement of an instruction with the point `next` behind it does. Nothing is promised where memory
// is refused.
fn change(site: &Site, next: u32, stmt: &Stmt, state: &mut State) -> Result<(), OutOfMemory>
    requires few { length site.now.tables.now ≤ 64 }
    requires lifted { IsLifted stmt.now }
    ensures form { OnOk result (abstract_of state.new
        ≡ apply (equation_site site.now next) stmt.now (abstract_of state.old)) }
    ensures fits { OnOk result
        (Fits site.now.bounds.now state.old → Fits site.now.bounds.now state.new) }
{
    match *stmt {
        Stmt::Set { dst, c } => {
            let known = plain(Value::Const(c));
            put(state, dst, known);
            Ok(())
        }
        Stmt::Copy { dst, src } => {
            copy_register(site, state, number_of(dst), number_of(src))?;
            Ok(())
        }
        Stmt::Narrow {
            dst,
            src,
            from,
            to,
            signed,
        } => {
            let known = narrowed(site, state, src, from, to, signed);
            put(state, dst, known);
            Ok(())
        }
        Stmt::Sum { dst, a, b, minus } => {
            let known = summed(site, state, a, b, minus);
            put(state, dst, known);
            Ok(())
        }
        Stmt::Lea { dst, mem } => {
            let known = address_known(site, next, state, &mem);
            put(state, dst, known);
            Ok(())
        }
        Stmt::And { dst, w, a, b } => {
            let known = masked(site, state, w, a, b);
            put(state, dst, known);
            Ok(())
        }
        Stmt::Shl { dst } => {
            let known = shifted(site, state, dst);
            put(state, dst, known);
            Ok(())
        }
        Stmt::Open { dst, w } => {
            let known = opened(site, state, w);
            put(state, dst, known);
            Ok(())
        }
        Stmt::Choose { dst, w, a, b } => {
            let known = chosen(site, state, w, a, b);
            put(state, dst, known);
            Ok(())
        }
        Stmt::Load {
            dst,
            size,
            to,
            signed,
            mem,
        } => {
            load(site, next, state, number_of(dst), size, to, signed, &mem)?;
            Ok(())
        }
        Stmt::Store { mem, size, src } => {
            store(site, next, state, &mem, size, src)?;
            Ok(())
        }
        Stmt::Touch { mem, size, write } => {
            if write {
                overwrite(site, next, state, &mem, size)?;
            }
            Ok(())
        }
        Stmt::Flags { fact } => {
            set_flags(site, state, fact)?;
            Ok(())
        }
        Stmt::Flow(_) => Ok(()),
    }
}

// Changes a state as several statements do, one after another. Nothing is promised where memory is refused.
pub(crate) fn change_all(
    site: &Site,
    next: u32,
    stmts: &[Stmt],
    state: &mut State,
) -> Result<(), OutOfMemory>
    requires few { length site.now.tables.now ≤ 64 }
    requires lifted { AllByRecursion IsLifted stmts.now }
    ensures form { OnOk result (abstract_of state.new
        ≡ applies (equation_site site.now next) stmts.now (abstract_of state.old)) }
    ensures fits { OnOk result
        (Fits site.now.bounds.now state.old → Fits site.now.bounds.now state.new) }
{
    for stmt in stmts {
        change(site, next, stmt, state)?;
    }
    Ok(())
}

/// Changes a state as a statement of an instruction with the point `next` behind it does. A `Flow` changes nothing here.
/// OutOfMemory where the allocator refuses a request; then nothing is promised of the state.
pub fn change_by_stmt(
    site: &Site,
    next: u32,
    stmt: &Stmt,
    state: &mut State,
) -> Result<(), OutOfMemory>
    requires few { length site.now.tables.now ≤ 64 }
    requires lifted { IsLifted stmt.now }
    ensures form { OnOk result ((f : Context) → IsSite f site.now
        → abstract_of state.new ≡ apply (site_at f next) stmt.now (abstract_of state.old)) }
    ensures fits { OnOk result
        (Fits site.now.bounds.now state.old → Fits site.now.bounds.now state.new) }
{
    change(site, next, stmt, state)
}

/// Changes a state as several statements of an instruction with the point `next` behind it do, one after another.
/// OutOfMemory where the allocator refuses a request; then nothing is promised of the state.
pub fn change_by_stmts(
    site: &Site,
    next: u32,
    stmts: &[Stmt],
    state: &mut State,
) -> Result<(), OutOfMemory>
    requires few { length site.now.tables.now ≤ 64 }
    requires lifted { AllByRecursion IsLifted stmts.now }
    ensures form { OnOk result ((f : Context) → IsSite f site.now
        → abstract_of state.new ≡ applies (site_at f next) stmts.now (abstract_of state.old)) }
    ensures fits { OnOk result
        (Fits site.now.bounds.now state.old → Fits site.now.bounds.now state.new) }
{
    change_all(site, next, stmts, state)
}

/// Changes a state as the statements of an instruction with the point `next` behind it do, and its end, after which tmp
/// may hold any number. Where memory is refused, the state stays as it was.
pub fn apply(site: &Site, next: u32, stmts: &[Stmt], state: &mut State) -> Result<(), OutOfMemory>
    requires few { length site.now.tables.now ≤ 64 }
    requires lifted { AllByRecursion IsLifted stmts.now }
    ensures ok { OnOk result ((f : Context) → IsSite f site.now
        → abstract_of state.new ≡ finish (applies (site_at f next) stmts.now (abstract_of state.old))) }
    ensures fits { Fits site.now.bounds.now state.old → Fits site.now.bounds.now state.new }
    ensures err { OnErr result (state.new ≡ state.old) }
{
    let mut after = state.copy()?;
    change_all(site, next, stmts, &mut after)?;
    after.finish();
    *state = after;
    Ok(())
}

/// The value of a register, or of tmp, after the statements of an instruction with the point `next` behind it.
/// OutOfMemory where the allocator refuses a request.
pub fn value_after(
    site: &Site,
    next: u32,
    stmts: &[Stmt],
    var: Var,
    state: &State,
) -> Result<Value, OutOfMemory>
    requires few { length site.now.tables.now ≤ 64 }
    requires lifted { AllByRecursion IsLifted stmts.now }
    ensures { IfOk result (λ value. (f : Context) → IsSite f site.now
        → value ≡ value_of (applies (site_at f next) stmts.now (abstract_of state.now)) (index_of var)) }
{
    let mut after = state.copy()?;
    change_all(site, next, stmts, &mut after)?;
    Ok(known_of(&after, var).value)
}
