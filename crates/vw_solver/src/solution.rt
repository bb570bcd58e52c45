ghost use Rattle.std.specs.Prelude.{◌≡◌, ℕ, ◌+◌, ◌-◌, ◌*◌, ◌<◌, ◌≤◌, [], length, replicate, true, false, Some, None, IfOk, OnOk, OnErr};
ghost use Rattle.std.specs.List.{All};
ghost use Rattle.vw_solver.specs.Solution.{state_at, IsLeast, HoldsReachedPoints, weight_of, weights_from};
ghost use Rattle.vw_solver.specs.Rising.{AreRising};
ghost use Rattle.vw_solver.specs.Standing.{IsTable, RanksAtMost};
ghost use Rattle.vw_solver.specs.Seed.{HasSeed, GrownFrom, TicksFrom, BoundFrom};
ghost use Rattle.vw_solver.specs.search.Landing.{AllValid, AllHaveStates, Visits};
ghost use Rattle.vw_solver.specs.search.Visited.{Visited, VisitsCounted, VisitsFailed};
ghost use Rattle.vw_solver.specs.search.Tables.{empties};

use crate::lands::land_all;
use crate::{Edges, Equations, Solved, Steps};
use std::alloc::Global;
use std::collections::BTreeSet;
use std::sync::ledger::Ledger;
use vw_bits::OutOfMemory;

// Evaluates a point and carries its edges' states to their targets. Answers whether a point had no state
// before.
fn visit<E: Equations, L: Ledger>(
    alloc: Global,
    equations: &E,
    point: u32,
    states: &mut Solved<E::State>,
    waiting: &mut BTreeSet<u32>,
    out: &mut Edges<E::State>,
    steps: &mut Steps<L>,
) -> Result<bool, OutOfMemory>
    requires rise { AreRising E.State.below (E.State.valid (E.bounds equations.now)) (E.edges equations.now) (E.points equations.now) }
    requires size { length states.old ≡ E.points equations.now }
    requires valid { AllValid (E.State.valid (E.bounds equations.now)) states.old }
    requires there { (s : E.State) × (state_at states.old point ≡ Some s) }
    ensures visited { IfOk result (λ met. Visited E.State.below (E.State.valid (E.bounds equations.now)) (E.edges equations.now) (E.points equations.now) point states.old waiting.old.keys states.new waiting.new.keys met) }
    ensures ticks { steps.new ≡ steps.old + E.weight equations.now point }
{
    let state = match states.at(point) {
        Some(state) => state,
        None => unreachable!(),
    };
    out.truncate(0);
    equations.post(alloc, point, state, out, steps)?;
    land_all(states, waiting, out, equations.bounds())
}

// Visits waiting points, the lowest first, until a point that had no state gets one or no point waits.
// Answers whether a point got its first state.
fn settle<E: Equations, L: Ledger>(
    alloc: Global,
    equations: &E,
    states: &mut Solved<E::State>,
    waiting: &mut BTreeSet<u32>,
    out: &mut Edges<E::State>,
    steps: &mut Steps<L>,
) -> Result<bool, OutOfMemory>
    requires rise { AreRising E.State.below (E.State.valid (E.bounds equations.now)) (E.edges equations.now) (E.points equations.now) }
    requires size { length states.old ≡ E.points equations.now }
    requires valid { AllValid (E.State.valid (E.bounds equations.now)) states.old }
    requires waiting { AllHaveStates states.old waiting.old.keys }
    ensures visits { OnOk result (VisitsCounted E.State.below (E.State.valid (E.bounds equations.now)) (E.edges equations.now) (E.weight equations.now) (E.points equations.now) states.old waiting.old.keys states.new waiting.new.keys (steps.new - steps.old)) }
    ensures failed { OnErr result (VisitsFailed E.State.below (E.State.valid (E.bounds equations.now)) (E.edges equations.now) (E.weight equations.now) (E.points equations.now) states.old waiting.old.keys (steps.new - steps.old)) }
    ensures fewer { IfOk result (λ met. met ≡ true → empties states.new < empties states.old) }
    ensures settled { IfOk result (λ met. met ≡ false → waiting.new.keys ≡ []) }
    ensures counts { steps.old ≤ steps.new }
{
    'visits: while let Some(point) = waiting.pop_first() {
        let met = visit(alloc, equations, point, states, waiting, out, steps)?;
        if met {
            return Ok(true);
        }
    }
    Ok(false)
}

/// The least solution of the equations, whose edges rise, in which `start` has at least the state `first`. The
/// steps that it counts are those of its evaluations: at most the sum of the weights of the points reached,
/// times one more than the greatest rank of a state that stands at a point of a table to which edges land, one
/// by one in any order, from the table with the first state alone. OutOfMemory where the allocator refuses a
/// request: then only the steps have changed, by at most the same product over all points.
pub fn solve<E: Equations, L: Ledger>(
    alloc: Global,
    equations: &E,
    start: u32,
    first: E::State,
    steps: &mut Steps<L>,
) -> Result<Solved<E::State>, OutOfMemory>
    requires rise { AreRising E.State.below (E.State.valid (E.bounds equations.now)) (E.edges equations.now) (E.points equations.now) }
    requires start { start < E.points equations.now }
    requires first { E.State.valid (E.bounds equations.now) first }
    ensures least { IfOk result (IsLeast E.State.below (E.State.valid (E.bounds equations.now)) (E.edges equations.now) (E.points equations.now) start first) }
    ensures reached { IfOk result (HoldsReachedPoints (E.edges equations.now) start) }
    ensures stands { IfOk result (λ table. IsTable E.State.below (E.State.valid (E.bounds equations.now)) (E.edges equations.now) (E.points equations.now) start first table []) }
    ensures ticks { IfOk result (λ table. (most : ℕ)
        → RanksAtMost E.State.below (E.State.valid (E.bounds equations.now)) (E.edges equations.now) (E.points equations.now) start first (E.State.rank (E.bounds equations.now)) most
        → steps.new ≤ steps.old + weight_of (E.weight equations.now) table * (most + 1)) }
    ensures bound { (most : ℕ)
        → RanksAtMost E.State.below (E.State.valid (E.bounds equations.now)) (E.edges equations.now) (E.points equations.now) start first (E.State.rank (E.bounds equations.now)) most
        → steps.new ≤ steps.old + weights_from (E.weight equations.now) 0 (E.points equations.now) * (most + 1) }
    ensures counts { steps.old ≤ steps.new }
{
    let mut states = Solved::new(alloc, equations.points())?;
    states.put(start, first)?;
    let mut waiting = BTreeSet::new(alloc);
    waiting.insert(start)?;
    let mut out = Edges::new(alloc);
    'rounds: loop {
        let met = settle(alloc, equations, &mut states, &mut waiting, &mut out, steps)?;
        if !met {
            break;
        }
    }
    Ok(states)
}

/// The least solution of the equations, whose edges rise, from a table that is lower than every solution, and
/// lacks of one only that the edges of these points land. It counts the steps of its evaluations, at most as
/// many as `solve` may, from each start and first state whose solutions the table is lower than. OutOfMemory
/// where the allocator refuses a request: then only the steps have changed, by at most the product over all
/// points.
pub fn resume<E: Equations, L: Ledger>(
    alloc: Global,
    equations: &E,
    table: Solved<E::State>,
    points: BTreeSet<u32>,
    steps: &mut Steps<L>,
) -> Result<Solved<E::State>, OutOfMemory>
    requires rise { AreRising E.State.below (E.State.valid (E.bounds equations.now)) (E.edges equations.now) (E.points equations.now) }
    requires seed { HasSeed E.State.below (E.State.valid (E.bounds equations.now)) (E.edges equations.now) (E.points equations.now) table points.keys }
    ensures grown { IfOk result (GrownFrom E.State.below (E.State.valid (E.bounds equations.now)) (E.edges equations.now) (E.points equations.now) table points.keys) }
    ensures ticks { IfOk result (TicksFrom E.State.below (E.State.valid (E.bounds equations.now)) (E.State.rank (E.bounds equations.now)) (E.edges equations.now) (E.weight equations.now) (E.points equations.now) table points.keys steps.old steps.new) }
    ensures bound { BoundFrom E.State.below (E.State.valid (E.bounds equations.now)) (E.State.rank (E.bounds equations.now)) (E.edges equations.now) (E.weight equations.now) (E.points equations.now) table points.keys steps.old steps.new }
    ensures counts { steps.old ≤ steps.new }
{
    let mut states = table;
    let mut waiting = points;
    let mut out = Edges::new(alloc);
    'rounds: loop {
        let met = settle(alloc, equations, &mut states, &mut waiting, &mut out, steps)?;
        if !met {
            break;
        }
    }
    Ok(states)
}
