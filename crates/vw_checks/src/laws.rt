//! Facts about the definitions, each the contract of a function that does nothing.

ghost use Rattle.std.specs.Prelude.{ℕ, List};
ghost use Rattle.vw_rows.specs.Numbers.{IsBytes};
ghost use Rattle.vw_domain.specs.declared.parts.Parts.{Parts};
ghost use Rattle.vw_domain.specs.State.{IsValidState, state_below};
ghost use Rattle.vw_state.specs.Context.{Context, code_of};
ghost use Rattle.vw_state.specs.Laws.{HasSites};
ghost use Rattle.vw_state.specs.Solution.{IsLower};
ghost use Rattle.vw_state.specs.Checks.{FailsGraph};
ghost use Rattle.vw_state.specs.Rounds.{IsRound, IsStable, IsLeast};
ghost use Rattle.vw_state.specs.declared.tables.PointState.{PointState};
ghost use Rattle.vw_checks.specs.Checks.{Fails, Passes, StatementsAreChecked, FlowsAreChecked, InstructionsAreChecked};
ghost use Rattle.vw_checks.specs.Safe.{NoneFails, IsSafeTable, HasSafeTable};

use vw_domain::{forms_tell_states, statements_are_sound, states_have_forms, transfer_checks_rise};
use vw_state::{rounds_are_lower, stable_rounds_solve, statements_have_displacements};

/// At a statement none of the checks of accesses fails exactly where the access is permitted; at a flow no check fails
/// exactly where it stays in the function, or is a call or a return that is permitted. So all this holds of an
/// instruction at which no check fails.
pub fn checks_are_conditions()
    ensures statements { StatementsAreChecked }
    ensures flows { FlowsAreChecked }
    ensures instructions { InstructionsAreChecked }
{}

/// Where no check fails at a state, none fails at a lower state of the same point. Checks 1 and 2 have this
/// property each by itself.
pub fn lower_states_pass()
    ensures passes { (f : Context) (at : ℕ) (low high : Parts) → IsBytes (code_of f) → HasSites f
        → IsValidState f.bounds low → IsValidState f.bounds high → state_below low high
        → Passes f at high → Passes f at low }
    ensures code { (f : Context) (at : ℕ) (low high : Parts) → state_below low high
        → (Fails f at high 1 → ⊥) → Fails f at low 1 → ⊥ }
    ensures jump { (f : Context) (at : ℕ) (low high : Parts) → IsBytes (code_of f) → HasSites f
        → IsValidState f.bounds low → IsValidState f.bounds high → state_below low high
        → (Fails f at high 2 → ⊥) → Fails f at low 2 → ⊥ }
{
    forms_tell_states();
    states_have_forms();
    statements_are_sound();
    transfer_checks_rise();
    statements_have_displacements();
}

/// The checks that stop the rounds are among all.
pub fn stops_are_checks()
    ensures { (f : Context) (at number : ℕ) (state : Parts)
        → FailsGraph f at state number → Fails f at state number }
{}

/// Where a function has a safe table, no check fails at a point of the table of any of its rounds, and this table is lower
/// than each safe one. So where a check fails at a point of a round's table, the function has no safe table.
pub fn rounds_of_safe_functions_pass()
    ensures passes { (f : Context) (number : ℕ) (pairs : List (ℕ × ℕ)) (table : List PointState)
        → IsBytes (code_of f) → HasSites f → IsRound f number pairs table
        → HasSafeTable f → NoneFails f table }
    ensures lower { (f : Context) (number : ℕ) (pairs : List (ℕ × ℕ)) (table safe : List PointState)
        → IsBytes (code_of f) → HasSites f → IsRound f number pairs table
        → IsSafeTable f safe → IsLower f table safe }
{
    lower_states_pass();
    rounds_are_lower();
}

/// The table of a round at which the rounds are stable is a safe table where no check fails at a point of it.
pub fn stable_rounds_are_safe()
    ensures { (f : Context) (number : ℕ) (pairs : List (ℕ × ℕ)) (table : List PointState)
        → IsBytes (code_of f) → HasSites f → IsRound f number pairs table → IsStable f pairs table
        → NoneFails f table → IsSafeTable f table }
{
    stable_rounds_solve();
}

/// The least table of a function is a safe table where there is one, and it is lower than every safe table.
pub fn least_table_is_safe()
    ensures safe { (f : Context) (least table : List PointState) → IsBytes (code_of f) → HasSites f
        → IsLeast f least → IsSafeTable f table → IsSafeTable f least }
    ensures lower { (f : Context) (least table : List PointState) → IsBytes (code_of f) → HasSites f
        → IsLeast f least → IsSafeTable f table → IsLower f least table }
{
    rounds_of_safe_functions_pass();
    stable_rounds_are_safe();
}
