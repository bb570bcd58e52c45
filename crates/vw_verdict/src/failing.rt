ghost use Rattle.std.specs.Prelude.{◌≡◌, ◌≤◌, length, Contains, IfOk};
ghost use Rattle.vw_layout.specs.declared.functions.Function.{Function};
ghost use Rattle.vw_layout.specs.Layout.{IsWhole};
ghost use Rattle.vw_state.specs.Context.{context_of, IsSite};
ghost use Rattle.vw_state.specs.Tables.{RisesWithin};
ghost use Rattle.vw_verdict.specs.search.Findings.{FirstFailing};

use std::alloc::Global;
use vw_bits::OutOfMemory;
use vw_checks::check_of_code;
use vw_layout::Module;
use vw_state::{PointState, Site};

/// The lowest point of a function's table at which a check fails, with the lowest number there; `None` exactly
/// where no check fails at a point of the table.
pub fn first_failing(
    alloc: Global,
    loaded: &Module,
    site: &Site,
    states: &[PointState],
) -> Result<Option<(u32, u8)>, OutOfMemory>
    requires whole { IsWhole loaded.now }
    requires few { length site.now.tables.now ≤ 64 }
    requires rises { RisesWithin 0 site.now.size states.now }
    ensures { (f : Function) → Contains loaded.now.functions f
        → IsSite (context_of loaded.now f) site.now
        → IfOk result (FirstFailing (context_of loaded.now f) states.now) }
{
    let code = site.code();
    for point in states {
        if let Some(number) = check_of_code(alloc, loaded, site, code, point.at, &point.state)? {
            return Ok(Some((point.at, number)));
        }
    }
    Ok(None)
}
