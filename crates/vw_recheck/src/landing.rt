ghost use Rattle.std.specs.Prelude.{◌≡◌, ◌↔◌, Some, None, IsTrue, IfSome, IfNone};
ghost use Rattle.std.specs.List.{All};
ghost use Rattle.vw_state.specs.Context.{Context, IsSite};
ghost use Rattle.vw_state.specs.Solution.{Lands};
ghost use Rattle.vw_state.specs.Tables.{state_of};
ghost use Rattle.vw_recheck.specs.Places.{PointsAscend, IsEdgeTo};

use vw_domain::State;
use vw_state::{PointState, Site};

/// Whether the points of a table ascend, none of them twice. Takes no memory.
pub(crate) fn points_ascend(states: &[PointState]) -> bool
    ensures { IsTrue result ↔ PointsAscend 0 states.now }
{
    let mut from = 0u64;
    for point in states {
        if (point.at as u64) < from {
            return false;
        }
        from = point.at as u64 + 1;
    }
    true
}

// The state that a table gives a point: that of number `near`, where it is the point's, or found by halves.
fn state_at(states: &[PointState], near: usize, at: u32) -> Option<&State>
    requires { PointsAscend 0 states.now }
    ensures found { IfSome result (λ state. state_of states.now at ≡ Some state.now) }
    ensures none { IfNone result (state_of states.now at ≡ None) }
{
    if near < states.len() && states[near].at == at {
        return Some(&states[near].state);
    }
    state_by_halves(states, at)
}

// The same, found by halves.
fn state_by_halves(states: &[PointState], at: u32) -> Option<&State>
    requires { PointsAscend 0 states.now }
    ensures found { IfSome result (λ state. state_of states.now at ≡ Some state.now) }
    ensures none { IfNone result (state_of states.now at ≡ None) }
{
    let index = states.partition_point(|point| point.at < at);
    if index < states.len() && states[index].at == at {
        Some(&states[index].state)
    } else {
        None
    }
}

/// Whether a state that comes to a point lands below the one that a table gives it: the table gives one, its bounds are
/// the function's, and it is greater or equal. `near` is the number that the point has in the table most likely. Takes no
/// memory.
pub(crate) fn lands(site: &Site, states: &[PointState], near: usize, at: u32, state: &State) -> bool
    requires { PointsAscend 0 states.now }
    ensures { (f : Context) → IsSite f site.now
        → (IsTrue result ↔ Lands f states.now (at, state.now)) }
{
    match state_at(states, near, at) {
        Some(cover) => {
            cover.is_state();
            state.lands_below(cover, site.bounds)
        }
        None => false,
    }
}

/// Whether each of some edges lands, most likely at the point with this number in the table. Takes no memory.
pub(crate) fn all_land(
    site: &Site,
    states: &[PointState],
    near: usize,
    edges: &[(u32, State)],
) -> bool
    requires { PointsAscend 0 states.now }
    ensures { (f : Context) → IsSite f site.now
        → (IsTrue result ↔ All (Lands f states.now) edges.now) }
{
    for edge in edges {
        if !lands(site, states, near, edge.0, &edge.1) {
            return false;
        }
    }
    true
}

/// Whether there is one edge, and it goes to the point with this number in the table, with the state that the table gives
/// the point, whose bounds are the function's. Takes no memory.
pub(crate) fn goes_on(
    site: &Site,
    states: &[PointState],
    next: usize,
    edges: &[(u32, State)],
) -> bool
    requires { PointsAscend 0 states.now }
    ensures same { IsTrue result → IsEdgeTo states.now next edges.now }
    ensures lands { IsTrue result → (f : Context) → IsSite f site.now
        → All (Lands f states.now) edges.now }
{
    if edges.len() != 1 {
        return false;
    }
    if states.len() <= next {
        return false;
    }
    let edge = &edges[0];
    let point = &states[next];
    if edge.0 != point.at {
        return false;
    }
    point.state.is_state();
    edge.1.is_same(&point.state, site.bounds)
}
