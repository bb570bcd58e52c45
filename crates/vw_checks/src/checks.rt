ghost use Rattle.std.specs.Prelude.{◌≡◌, ◌≤◌, length, true, Contains, IfOk, OnOk};
ghost use Rattle.std.specs.List.{AllByRecursion};
ghost use Rattle.vw_stmt.specs.Lifted.{IsLifted};
ghost use Rattle.vw_layout.specs.declared.functions.Function.{Function};
ghost use Rattle.vw_layout.specs.Layout.{IsWhole};
ghost use Rattle.vw_domain.specs.Abstract.{abstract_of};
ghost use Rattle.vw_domain.specs.Statements.{applies};
ghost use Rattle.vw_state.specs.Code.{code_at, IsPointInsn};
ghost use Rattle.vw_state.specs.Context.{Context, context_of, IsSite, site_at};
ghost use Rattle.vw_state.specs.Post.{IsBehind};
ghost use Rattle.vw_checks.specs.Checks.{IsLowestOf, StmtsFail, LowestFailing};
ghost use Rattle.vw_checks.specs.Functions.{IsFunctionOf};
ghost use Rattle.vw_checks.specs.Harmless.{never_fail_behind};

use crate::harmless::never_fail_behind;
use crate::lowest::lower;
use crate::statements::failing_stmt;
use std::alloc::Global;
use vw_bits::OutOfMemory;
use vw_domain::State;
use vw_lattice::Lattice;
use vw_layout::Module;
use vw_lift::lift;
use vw_state::{PointInsn, Site, change_by_stmt, change_by_stmts, code_is_short, instruction_at};
use vw_stmt::Stmt;

/// The lowest number of the checks that fail at a point of a function with a state; `None` exactly where no
/// check fails. This holds where the site is that of a declared function of the module.
/// The checks are 1, code: nothing decodes in the bytes from the point to the function's end, as at each point at or above
/// its size; 2, jump: a direct jump or branch leaves the function, or it is not known of a jump through a register that it
/// goes where one of the first entries of a table leads, each of which leads into the function; and at each statement, with
/// the state before it, 3, depth: a write of the frame, as the push of a call, begins below the probed part of the stack and
/// the guard, or rsp is not known at a call; 4, address: an access is not all in the heap, the globals or what may be read;
/// 5, read only: a write of the frame ends above it, or the image is written; 6, local: what is read of the frame was not
/// written; 7, call: what a direct call enters, that a call through a register enters the function of an entry of a table
/// with a known tag, or that rdi then holds the heap's base, is not known; 8, return: rsp or a register that the caller
/// keeps is not known to be as it was. OutOfMemory where the allocator refuses a request.
pub fn check(
    alloc: Global,
    loaded: &Module,
    site: &Site,
    at: u32,
    state: &State,
) -> Result<Option<u8>, OutOfMemory>
    requires whole { IsWhole loaded.now }
    requires few { length site.now.tables.now ≤ 64 }
    ensures { (f : Function) → Contains loaded.now.functions f
        → IsSite (context_of loaded.now f) site.now
        → IfOk result (LowestFailing (context_of loaded.now f) at state.now) }
{
    failing(alloc, loaded, site, site.code(), at, state)
}

/// The same, where the function's code is at hand.
pub fn check_of_code(
    alloc: Global,
    loaded: &Module,
    site: &Site,
    code: &[u8],
    at: u32,
    state: &State,
) -> Result<Option<u8>, OutOfMemory>
    requires whole { IsWhole loaded.now }
    requires few { length site.now.tables.now ≤ 64 }
    requires code { code.now ≡ code_at site.now.image.now site.now.entry site.now.size }
    ensures { (f : Function) → Contains loaded.now.functions f
        → IsSite (context_of loaded.now f) site.now
        → IfOk result (LowestFailing (context_of loaded.now f) at state.now) }
{
    failing(alloc, loaded, site, code, at, state)
}

/// The same, where the instruction at the point is at hand, and the state is changed as its statements do, but for its
/// transfer of control: each statement is looked at once. After OutOfMemory nothing is promised of the state.
pub fn check_and_change(
    loaded: &Module,
    site: &Site,
    code: &[u8],
    point: &PointInsn,
    state: &mut State,
) -> Result<Option<u8>, OutOfMemory>
    requires whole { IsWhole loaded.now }
    requires few { length site.now.tables.now ≤ 64 }
    requires code { code.now ≡ code_at site.now.image.now site.now.entry site.now.size }
    requires point { IsPointInsn code.now point.now }
    ensures lowest { (f : Function) → Contains loaded.now.functions f
        → IsSite (context_of loaded.now f) site.now
        → IfOk result (LowestFailing (context_of loaded.now f) point.now.at state.old) }
    ensures behind { OnOk result ((f : Context) → IsSite f site.now
        → IsBehind f point.now state.old state.new) }
{
    code_is_short();
    let _code = code;
    let _size = site.size;
    change_all(loaded, site, point.stmts, point.at + point.len, state)
}

// The lowest number of the checks that fail at a point.
fn failing(
    alloc: Global,
    loaded: &Module,
    site: &Site,
    code: &[u8],
    at: u32,
    state: &State,
) -> Result<Option<u8>, OutOfMemory>
    requires whole { IsWhole loaded.now }
    requires few { length site.now.tables.now ≤ 64 }
    requires code { code.now ≡ code_at site.now.image.now site.now.entry site.now.size }
    ensures { (f : Context) → IsFunctionOf loaded.now f → IsSite f site.now
        → IfOk result (LowestFailing f at state.now) }
{
    let Some((insn, len)) = instruction_at(code, at) else {
        return Ok(Some(1));
    };
    let stmts = lift(alloc, &insn, 0, 0);
    let point = PointInsn {
        at,
        len,
        insn: &insn,
        stmts: stmts.as_slice(),
    };
    failing_insn(loaded, site, code, &point, state)
}

// The lowest number of the checks that fail at a point with this instruction.
fn failing_insn(
    loaded: &Module,
    site: &Site,
    code: &[u8],
    point: &PointInsn,
    state: &State,
) -> Result<Option<u8>, OutOfMemory>
    requires whole { IsWhole loaded.now }
    requires few { length site.now.tables.now ≤ 64 }
    requires code { code.now ≡ code_at site.now.image.now site.now.entry site.now.size }
    requires point { IsPointInsn code.now point.now }
    ensures { (f : Context) → IsFunctionOf loaded.now f → IsSite f site.now
        → IfOk result (LowestFailing f point.now.at state.now) }
{
    code_is_short();
    let _code = code;
    let _size = site.size;
    failing_stmts(loaded, site, point.stmts, point.at + point.len, state)
}

// The lowest number of the checks that fail at some statements, the first of them with this state before it. The state is
// copied and changed only where a check may fail behind the first of them.
fn failing_stmts(
    loaded: &Module,
    site: &Site,
    stmts: &[Stmt],
    next: u32,
    state: &State,
) -> Result<Option<u8>, OutOfMemory>
    requires whole { IsWhole loaded.now }
    requires few { length site.now.tables.now ≤ 64 }
    requires lifted { AllByRecursion IsLifted stmts.now }
    ensures { (f : Context) → IsFunctionOf loaded.now f → IsSite f site.now
        → IfOk result (IsLowestOf (StmtsFail f next (abstract_of state.now) stmts.now)) }
{
    if !never_fail_behind(stmts) {
        let mut copy = state.copy()?;
        return change_all(loaded, site, stmts, next, &mut copy);
    }
    Ok(failing_first(loaded, site, stmts, next, state))
}

// The same, and changes the state as the statements do: one by one, where a check may fail behind the first of them.
// Nothing is promised of the state where memory is refused.
fn change_all(
    loaded: &Module,
    site: &Site,
    stmts: &[Stmt],
    next: u32,
    state: &mut State,
) -> Result<Option<u8>, OutOfMemory>
    requires whole { IsWhole loaded.now }
    requires few { length site.now.tables.now ≤ 64 }
    requires lifted { AllByRecursion IsLifted stmts.now }
    ensures lowest { (f : Context) → IsFunctionOf loaded.now f → IsSite f site.now
        → IfOk result (IsLowestOf (StmtsFail f next (abstract_of state.old) stmts.now)) }
    ensures form { OnOk result ((f : Context) → IsSite f site.now
        → abstract_of state.new ≡ applies (site_at f next) stmts.now (abstract_of state.old)) }
{
    if never_fail_behind(stmts) {
        let first = failing_first(loaded, site, stmts, next, state);
        change_by_stmts(site, next, stmts, state)?;
        return Ok(first);
    }
    let mut lowest = None;
    for stmt in stmts {
        lowest = lower(lowest, failing_stmt(loaded, site, stmt, next, state));
        change_by_stmt(site, next, stmt, state)?;
    }
    Ok(lowest)
}

// The lowest number of the checks that fail at the first of some statements, behind which none can fail.
fn failing_first(
    loaded: &Module,
    site: &Site,
    stmts: &[Stmt],
    next: u32,
    state: &State,
) -> Option<u8>
    requires whole { IsWhole loaded.now }
    requires few { length site.now.tables.now ≤ 64 }
    requires lifted { AllByRecursion IsLifted stmts.now }
    requires behind { never_fail_behind stmts.now ≡ true }
    ensures { (f : Context) → IsFunctionOf loaded.now f → IsSite f site.now
        → IsLowestOf (StmtsFail f next (abstract_of state.now) stmts.now) result }
{
    match stmts {
        [] => None,
        [first, ..] => failing_stmt(loaded, site, first, next, state),
    }
}
