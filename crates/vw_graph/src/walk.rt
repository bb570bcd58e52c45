//! The walk over the points of a round's table of states.

ghost use Rattle.std.specs.Prelude.{◌≡◌, ◌+◌, ◌^◌, ◌<◌, ◌≤◌, length, IfOk, MatchOption};
ghost use Rattle.vw_state.specs.Context.{Context, IsSite, code_of};
ghost use Rattle.vw_graph.specs.search.Jumps.{HasSlots};
ghost use Rattle.vw_graph.specs.search.Walks.{AllFitIn, StopsHere, PassesHere, KeepsSlots, FindsIn};

use crate::jumps::put;
use crate::looks::look_at;
use std::alloc::Global;
use vw_bits::OutOfMemory;
use vw_domain::State;
use vw_solver::Solved;
use vw_state::{JumpTable, Site};

/// What is found at a point with a state.
pub(crate) enum Look {
    /// No check of the graph fails, and no jump through a register stands there.
    Passes,
    /// No check of the graph fails, and a jump goes through one of the entries of this table.
    Jumps(JumpTable),
    /// This check of the graph fails, the lowest one: 1, code; 2, jump.
    Stops(u8),
}

/// What is found in a table of states.
#[derive(Drop)]
pub(crate) enum Walk {
    /// A check of the graph fails: the lowest such point, and the lowest check there.
    Stops { at: u32, check: u8 },
    /// None fails: the tables of jumps of which the states tell, by point.
    Passes(Vec<Option<JumpTable>>),
}

// The check of the graph that fails at a point. Where none fails, the slot of the point is filled.
fn step(
    alloc: Global,
    site: &Site,
    code: &[u8],
    table: &Solved<State>,
    point: u32,
    slots: &mut Vec<Option<JumpTable>>,
) -> Result<Option<u8>, OutOfMemory>
    requires few { length site.now.tables.now ≤ 64 }
    requires short { length code.now ≤ site.now.size }
    requires small { site.now.size + 1 < 2 ^ 32 }
    requires fits { AllFitIn site.now.bounds.now table.now }
    requires point { point < site.now.size + 1 }
    requires slots { HasSlots (site.now.size + 1) slots.old.items }
    ensures slots { IfOk result (λ fault. HasSlots (site.now.size + 1) slots.new.items) }
    ensures finds { IfOk result (λ fault. (f : Context) → IsSite f site.now → code_of f ≡ code.now
        → MatchOption fault (PassesHere f table.now point slots.old.items slots.new.items)
        (λ check. StopsHere f table.now point check)) }
{
    let Some(state) = table.at(point) else {
        return Ok(None);
    };
    match look_at(alloc, site, code, point, state)? {
        Look::Passes => Ok(None),
        Look::Jumps(jumps) => {
            put(alloc, slots, site.size + 1, point, jumps)?;
            Ok(None)
        }
        Look::Stops(check) => Ok(Some(check)),
    }
}

/// Looks at each point of a table that has a state, until a check of the graph fails.
pub(crate) fn walk_over(
    alloc: Global,
    site: &Site,
    code: &[u8],
    table: &Solved<State>,
) -> Result<Walk, OutOfMemory>
    requires few { length site.now.tables.now ≤ 64 }
    requires short { length code.now ≤ site.now.size }
    requires small { site.now.size + 1 < 2 ^ 32 }
    requires size { length table.now ≡ site.now.size + 1 }
    requires fits { AllFitIn site.now.bounds.now table.now }
    ensures slots { IfOk result (KeepsSlots (site.now.size + 1)) }
    ensures finds { IfOk result (λ found. (f : Context) → IsSite f site.now → code_of f ≡ code.now
        → FindsIn f table.now (site.now.size + 1) found) }
{
    let mut slots = Vec::new(alloc);
    for point in 0..site.size + 1 {
        if let Some(check) = step(alloc, site, code, table, point, &mut slots)? {
            return Ok(Walk::Stops { at: point, check });
        }
    }
    Ok(Walk::Passes(slots))
}
