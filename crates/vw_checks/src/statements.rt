ghost use Rattle.std.specs.Prelude.{◌≤◌, length};
ghost use Rattle.vw_layout.specs.Layout.{IsWhole};
ghost use Rattle.vw_stmt.specs.Lifted.{IsLifted};
ghost use Rattle.vw_domain.specs.Abstract.{abstract_of};
ghost use Rattle.vw_state.specs.Context.{Context, IsSite};
ghost use Rattle.vw_checks.specs.Checks.{IsLowestOf, StmtFails};
ghost use Rattle.vw_checks.specs.Functions.{IsFunctionOf};

use crate::accesses::{failing_read, failing_touch, failing_write};
use crate::transfers::failing_flow;
use vw_domain::State;
use vw_layout::Module;
use vw_state::{Site, address};
use vw_stmt::Stmt;

/// The lowest number of the checks that fail at a statement with the state before it, of an instruction with `next`
/// behind it.
pub(crate) fn failing_stmt(
    loaded: &Module,
    site: &Site,
    stmt: &Stmt,
    next: u32,
    state: &State,
) -> Option<u8>
    requires whole { IsWhole loaded.now }
    requires few { length site.now.tables.now ≤ 64 }
    requires lifted { IsLifted stmt.now }
    ensures { (f : Context) → IsFunctionOf loaded.now f → IsSite f site.now
        → IsLowestOf (StmtFails f next (abstract_of state.now) stmt.now) result }
{
    match stmt {
        Stmt::Load { size, mem, .. } => {
            failing_read(site, state, address(site, next, mem, state), *size)
        }
        Stmt::Store { size, mem, .. } => {
            failing_write(state, address(site, next, mem, state), *size)
        }
        Stmt::Touch { size, mem, write } => failing_touch(
            site,
            state,
            *write,
            address(site, next, mem, state),
            *size,
        ),
        Stmt::Flow(flow) => failing_flow(loaded, site, next, *flow, state),
        Stmt::Set { .. }
        | Stmt::Copy { .. }
        | Stmt::Narrow { .. }
        | Stmt::Sum { .. }
        | Stmt::Lea { .. }
        | Stmt::And { .. }
        | Stmt::Shl { .. }
        | Stmt::Open { .. }
        | Stmt::Choose { .. }
        | Stmt::Flags { .. } => None,
    }
}
