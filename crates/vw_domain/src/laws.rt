//! What holds of all states, each the contract of a function that does nothing.

ghost use Rattle.vw_domain.specs.Forms.{FormsTellStates, OrderIsThatOfForms};
ghost use Rattle.vw_domain.specs.FormLaws.{StatesHaveForms, StatesNameBounds, FormsAreOfStates, StateOfForms, EntryIsState};
ghost use Rattle.vw_domain.specs.Ranks.{StateRanksAreBounded, StateRanksAreSmall};
ghost use Rattle.vw_domain.specs.Stands.{LowerSaysMore, LowerStandsForLess};

use vw_values::{ranks_are_small, values_stand};

/// A lower state says more in its abstract form, and stands for less.
pub fn lower_states_stand_for_less()
    ensures form { LowerSaysMore }
    ensures meaning { LowerStandsForLess }
{
    values_stand();
}

/// The order of states is that of their abstract forms, and states with one form are one state.
pub fn forms_tell_states()
    ensures order { OrderIsThatOfForms }
    ensures states { FormsTellStates }
{}

/// The abstract form of each state keeps to the ranges of forms, and each form that keeps to them is that of a state:
/// of the one that is built of it. The bounds that a state names are
/// among some that hold each list of bounds.
pub fn states_have_forms()
    ensures forms { StatesHaveForms }
    ensures bounds { StatesNameBounds }
    ensures states { FormsAreOfStates }
    ensures built { StateOfForms }
{}

/// What is known at a function's entry is a state, whatever the bounds.
pub fn entry_is_state()
    ensures { EntryIsState }
{}

/// How often a state can still rise, by the number of bounds and the size of the function.
pub fn state_ranks_are_small()
    ensures bounded { StateRanksAreBounded }
    ensures small { StateRanksAreSmall }
{
    ranks_are_small();
}
