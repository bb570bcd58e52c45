//! Facts about rounds, each the contract of a function that does nothing.

ghost use Rattle.std.specs.Prelude.{◌≡◌, ◌≤◌, ℕ, ◌+◌, List, length, Contains};
ghost use Rattle.vw_rows.specs.Numbers.{IsBytes};
ghost use Rattle.vw_domain.specs.declared.parts.Parts.{Parts};
ghost use Rattle.vw_domain.specs.State.{IsValidState, state_below};
ghost use Rattle.vw_state.specs.declared.tables.PointState.{PointState};
ghost use Rattle.vw_state.specs.Checks.{FailsGraph, PassesGraph};
ghost use Rattle.vw_state.specs.Context.{Context, code_of};
ghost use Rattle.vw_state.specs.Laws.{HasSites};
ghost use Rattle.vw_state.specs.Post.{edges_with};
ghost use Rattle.vw_state.specs.RoundLaws.{RoundLaws};
ghost use Rattle.vw_state.specs.Rounds.{JumpsTo, IsRound, IsStable, IsLeast};
ghost use Rattle.vw_state.specs.Solution.{Solves, IsLower};

use crate::laws::laws_of_edges;
use vw_decode::read_is_spelling;

/// A check of the graph that fails at a state fails at each greater state of the same point.
pub fn graph_checks_rise()
    ensures { (f : Context) (at check : ℕ) (low high : Parts) → IsBytes (code_of f) → HasSites f
        → IsValidState f.bounds low → IsValidState f.bounds high → state_below low high
        → FailsGraph f at low check → FailsGraph f at high check }
{
    laws_of_edges();
}

// The laws on which those of the rounds rest.
fn laws_of_rounds()
    ensures { (f : Context) → IsBytes (code_of f) → HasSites f → RoundLaws f }
{
    laws_of_edges();
    read_is_spelling();
}

/// The table of a round is lower than every solution of the function's equations at whose points no check of the graph
/// fails.
pub fn rounds_are_lower()
    ensures { (f : Context) (number : ℕ) (pairs : List (ℕ × ℕ)) (table other : List PointState)
        → IsBytes (code_of f) → HasSites f → IsRound f number pairs table
        → Solves f other → PassesGraph f other → IsLower f table other }
{
    laws_of_rounds();
}

/// The table of a round at which the rounds are stable solves the function's equations.
pub fn stable_rounds_solve()
    ensures { (f : Context) (number : ℕ) (pairs : List (ℕ × ℕ)) (table : List PointState)
        → IsBytes (code_of f) → HasSites f → IsRound f number pairs table
        → IsStable f pairs table → Solves f table }
{}

/// Where no check of the graph stops a round, its table tells of each of its jumps, and there are at most as many rounds
/// before it as it has jumps.
pub fn jumps_stay()
    ensures stay { (f : Context) (number : ℕ) (pairs : List (ℕ × ℕ)) (table : List PointState) (at to : ℕ)
        → IsBytes (code_of f) → HasSites f → IsRound f number pairs table → PassesGraph f table
        → Contains pairs (at, to) → JumpsTo f table at to }
    ensures few { (f : Context) (number : ℕ) (pairs : List (ℕ × ℕ)) (table : List PointState)
        → IsBytes (code_of f) → HasSites f → IsRound f number pairs table → number ≤ 1 + length pairs }
{
    laws_of_rounds();
}

/// Where the jumps of a point are among others, its edges with them are among those with the others.
pub fn more_jumps_more_edges()
    ensures { (f : Context) (pairs more : List (ℕ × ℕ)) (at : ℕ) (state : Parts) (edge : ℕ × Parts)
        → ((to : ℕ) → Contains pairs (at, to) → Contains more (at, to))
        → Contains (edges_with f pairs at state) edge → Contains (edges_with f more at state) edge }
{}

/// A function has one least table.
pub fn least_tables_are_one()
    ensures { (f : Context) (table other : List PointState) → IsBytes (code_of f) → HasSites f
        → IsLeast f table → IsLeast f other → table ≡ other }
{
    laws_of_rounds();
}
