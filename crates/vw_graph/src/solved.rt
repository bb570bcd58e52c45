ghost use Rattle.std.specs.Prelude.{◌≡◌, ◌++◌, length, IfOk, OnOk};
ghost use Rattle.vw_graph.specs.search.Solved.{gather, held};

use std::alloc::Global;
use vw_bits::{List, OutOfMemory};
use vw_domain::State;
use vw_solver::Solved;
use vw_state::PointState;

/// The points that have a state, ascending.
pub(crate) fn point_states(
    alloc: Global,
    mut solved: Solved<State>,
    points: u32,
) -> Result<List<PointState>, OutOfMemory>
    requires { length solved ≡ points }
    ensures { IfOk result (λ states. states ≡ gather 0 solved) }
{
    let mut states = List::new(alloc);
    for point in 0..points {
        append_point(point, solved.take(point), &mut states)?;
    }
    Ok(states)
}

// Appends a point with its state, where it has one.
fn append_point(
    point: u32,
    state: Option<State>,
    states: &mut List<PointState>,
) -> Result<(), OutOfMemory>
    ensures { OnOk result (states.new ≡ states.old ++ held point state) }
{
    match state {
        Some(state) => states.push(PointState { at: point, state }),
        None => Ok(()),
    }
}
