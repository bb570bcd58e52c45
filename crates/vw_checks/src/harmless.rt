//! Statements at which no check can fail, whatever the state before them is.

ghost use Rattle.std.specs.Prelude.{◌≡◌};
ghost use Rattle.std.specs.List.{list_all};
ghost use Rattle.vw_checks.specs.Harmless.{never_fails, never_fail_behind};

use vw_stmt::{Flow, Stmt};

// Whether no check can fail at any of some statements but the first.
pub(crate) fn never_fail_behind(stmts: &[Stmt]) -> bool
    ensures { result ≡ never_fail_behind stmts.now }
{
    match stmts {
        [] => true,
        [_, behind @ ..] => never_fail(behind),
    }
}

// Whether no check can fail at any of some statements.
fn never_fail(stmts: &[Stmt]) -> bool
    ensures { result ≡ list_all never_fails stmts.now }
{
    stmts.iter().all(|stmt| never_fails(stmt))
}

// Whether no check can fail at a statement: it accesses no memory, and control goes on behind it or stops.
fn never_fails(stmt: &Stmt) -> bool
    ensures { result ≡ never_fails stmt.now }
{
    match stmt {
        Stmt::Load { .. } | Stmt::Store { .. } | Stmt::Touch { .. } => false,
        Stmt::Flow(flow) => matches!(flow, Flow::Next | Flow::Stop),
        _ => true,
    }
}
