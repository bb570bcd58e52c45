ghost use Rattle.std.specs.Prelude.{◌≡◌, ◌≤◌, [], ◌∷◌, length, Contains, IsTrue, IfOk, OnOk};
ghost use Rattle.vw_layout.specs.declared.functions.Function.{Function};
ghost use Rattle.vw_layout.specs.Layout.{IsWhole};
ghost use Rattle.vw_domain.specs.State.{entry_state};
ghost use Rattle.vw_state.specs.Code.{code_at};
ghost use Rattle.vw_state.specs.Context.{context_of, IsSite};
ghost use Rattle.vw_recheck.specs.Places.{PointsAscend, IsEdgeTo, IsLowestAt, IsLowestIn};

use crate::landing::{all_land, goes_on, lands, points_ascend};
use std::alloc::Global;
use vw_bits::OutOfMemory;
use vw_checks::{check_and_change, check_of_code};
use vw_domain::State;
use vw_layout::Module;
use vw_lift::lift;
use vw_solver::Edges;
use vw_state::{
    PointInsn, PointState, Site, code_is_short, codes_are_bytes, edges_are_post, has_no_edge,
    instruction_at, post_behind,
};

/// States whose memory serves one point after another: those of the edges of the point before, and one more, for a point
/// that two edges leave. Where the point before goes on to the next one with the state that the table gives it, this state
/// need not be copied.
#[derive(Drop)]
pub(crate) struct Used {
    edges: Edges<State>,
    spare: Option<State>,
    goes_on: bool,
}

impl Used {
    /// None yet. Takes no memory.
    pub(crate) fn new(alloc: Global) -> Used
        ensures { result.edges ≡ [] }
    {
        Used {
            edges: Edges::new(alloc),
            spare: None,
            goes_on: false,
        }
    }
}

// The state that a table gives a point: that of the edge to it where the point before goes on with it, and else a copy. No
// edge is left.
fn state_in(used: &mut Used, point: &PointState) -> Result<State, OutOfMemory>
    requires { IsTrue used.old.goes_on → used.old.edges ≡ (point.now.at, point.now.state) ∷ [] }
    ensures copy { IfOk result (λ state. state ≡ point.now.state) }
    ensures empty { used.new.edges ≡ [] }
{
    if used.goes_on {
        if let Some((_, state)) = used.edges.pop() {
            return Ok(state);
        }
    }
    copy_in(used, &point.state)
}

// A copy of a state, in the memory of the last of the edges where there is one. No edge is left.
fn copy_in(used: &mut Used, state: &State) -> Result<State, OutOfMemory>
    ensures copy { IfOk result (λ copy. copy ≡ state.now) }
    ensures empty { used.new.edges ≡ [] }
{
    let last = used.edges.pop();
    if let Some((_, other)) = used.edges.pop() {
        used.spare = Some(other);
    }
    used.edges.truncate(0);
    match last {
        Some((_, copy)) => state.copy_in(Some(copy)),
        None => state.copy_in(None),
    }
}

// The lowest number of what fails at a point of a table. Most edges go to the point with the number `near` in the table,
// which is the next one. After it, it is known whether the one edge goes there with the state that the table gives it.
fn failing_at(
    alloc: Global,
    loaded: &Module,
    site: &Site,
    code: &[u8],
    states: &[PointState],
    point: &PointState,
    near: usize,
    used: &mut Used,
) -> Result<Option<u8>, OutOfMemory>
    requires whole { IsWhole loaded.now }
    requires few { length site.now.tables.now ≤ 64 }
    requires code { code.now ≡ code_at site.now.image.now site.now.entry site.now.size }
    requires ascends { PointsAscend 0 states.now }
    requires goes_on { IsTrue used.old.goes_on
        → used.old.edges ≡ (point.now.at, point.now.state) ∷ [] }
    ensures goes_on { OnOk result
        (IsTrue used.new.goes_on → IsEdgeTo states.now near used.new.edges) }
    ensures lowest { (f : Function) → Contains loaded.now.functions f
        → IsSite (context_of loaded.now f) site.now
        → IfOk result
        (IsLowestAt (context_of loaded.now f) states.now point.now.at point.now.state) }
{
    edges_are_post();
    codes_are_bytes(loaded);
    let Some((insn, len)) = instruction_at(code, point.at) else {
        let lacking = check_of_code(alloc, loaded, site, code, point.at, &point.state)?;
        used.goes_on = false;
        return Ok(lacking);
    };
    let stmts = lift(alloc, &insn, 0, 0);
    let here = PointInsn {
        at: point.at,
        len,
        insn: &insn,
        stmts: stmts.as_slice(),
    };
    let mut state = state_in(used, point)?;
    used.goes_on = false;
    let number = check_and_change(loaded, site, code, &here, &mut state)?;
    if has_no_edge(site, code, &here) {
        // the point after it takes the memory of the state
        used.edges.push((point.at, state))?;
        return Ok(number);
    }
    post_behind(site, code, &here, state, &mut used.spare, &mut used.edges)?;
    if goes_on(site, states, near, used.edges.as_slice()) {
        used.goes_on = true;
        return Ok(number);
    }
    if !all_land(site, states, near, used.edges.as_slice()) {
        return Ok(Some(0));
    }
    Ok(number)
}

/// The lowest offset at which a function's table is not safe, with the lowest number there: 0 where the table is no
/// solution of the function's equations, and else that of a check. `None` exactly where the table is safe. `start` is the
/// state at an entry.
pub(crate) fn lowest_in(
    alloc: Global,
    loaded: &Module,
    site: &Site,
    states: &[PointState],
    start: &State,
    used: &mut Used,
) -> Result<Option<(u32, u8)>, OutOfMemory>
    requires whole { IsWhole loaded.now }
    requires few { length site.now.tables.now ≤ 64 }
    requires start { start.now ≡ entry_state }
    ensures { (f : Function) → Contains loaded.now.functions f
        → IsSite (context_of loaded.now f) site.now
        → IfOk result (IsLowestIn (context_of loaded.now f) states.now) }
{
    edges_are_post();
    code_is_short();
    codes_are_bytes(loaded);
    let code = site.code();
    if !points_ascend(states) {
        return Ok(Some((0, 0)));
    }
    if !lands(site, states, 0, 0, start) {
        return Ok(Some((0, 0)));
    }
    used.goes_on = false;
    let mut near = 0usize;
    for point in states {
        near = near.saturating_add(1);
        if let Some(number) = failing_at(alloc, loaded, site, code, states, point, near, used)? {
            return Ok(Some((point.at, number)));
        }
    }
    Ok(None)
}
