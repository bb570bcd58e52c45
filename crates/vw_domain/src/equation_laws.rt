//! What holds of the equations, each the contract of a function that does nothing.

ghost use Rattle.vw_domain.specs.ValueLaws.{ValueLaws};
ghost use Rattle.vw_domain.specs.EquationLaws.{StatementsStand, AccessesArePermitted, StatementsRise, StatementsKeepForms, ChecksRise};
ghost use Rattle.vw_domain.specs.EquationLaws.{ListsRise, ListsKeepForms, ListChecksRise, EndsStand, EndsRise, EndsKeepForms};
ghost use Rattle.vw_domain.specs.EquationLaws.{LowerFormsStandForLess, BranchesStand, BranchesRise, CallsStand, ProbesStand, CallsRise, CallsKeepForms, ProbesRise, TransferChecksRise, ValueChecksRise};
ghost use Rattle.vw_domain.specs.FormLaws.{StatementsKeepStateForms, ListsKeepStateForms, EndsKeepStateForms, CallsKeepStateForms, ProbesKeepStateForms, EdgesKeepStateForms, MayGoIsDecided};

use vw_values::{
    ands_are_sound, below_is_greatest, below_is_sound, differences_are_sound, equal_is_sound,
    joins_are_least, joins_rise, low_bits_are_sound, multiples_are_sound, sums_are_sound,
    tag_tests_are_sound, values_stand,
};

/// The laws of values on which those of states rest, in one place.
pub fn laws_of_values()
    ensures { ValueLaws }
{
    joins_are_least();
    joins_rise();
    values_stand();
    tag_tests_are_sound();
    sums_are_sound();
    differences_are_sound();
    low_bits_are_sound();
    ands_are_sound();
    multiples_are_sound();
    below_is_sound();
    equal_is_sound();
    below_is_greatest();
}

/// The state after a statement stands for the machine after it and rises with the state before; it keeps the ranges
/// of states. Where no check fails, what the statement reads and writes is permitted, and none fails at a lower
/// state.
pub fn statements_are_sound()
    ensures stand { StatementsStand }
    ensures accesses { AccessesArePermitted }
    ensures rise { StatementsRise }
    ensures forms { StatementsKeepForms }
    ensures checks { ChecksRise }
{
    laws_of_values();
}

/// So it is with the statements of an instruction, one after another.
pub fn statement_lists_are_sound()
    ensures rise { ListsRise }
    ensures forms { ListsKeepForms }
    ensures checks { ListChecksRise }
{
    laws_of_values();
}

/// And with the end of an instruction, behind which tmp may hold any number.
pub fn instruction_ends_are_sound()
    ensures stand { EndsStand }
    ensures rise { EndsRise }
    ensures forms { EndsKeepForms }
{
    laws_of_values();
}

/// A lower form of a state stands for less.
pub fn lower_forms_stand_for_less()
    ensures { LowerFormsStandForLess }
{
    laws_of_values();
}

/// A branch goes along an edge that is there, and its state stands; a lower state has lower edges, or lacks them.
pub fn branches_are_sound()
    ensures stand { BranchesStand }
    ensures rise { BranchesRise }
{
    laws_of_values();
}

/// Whether control may go along an edge of a branch is decided at the places that a state can name.
pub fn edges_are_decided()
    ensures { MayGoIsDecided }
{}

/// What the equation of a call leaves stands for what a callee may leave, and rises with the state before.
pub fn calls_are_sound()
    ensures stand { CallsStand }
    ensures probes_stand { ProbesStand }
    ensures rise { CallsRise }
    ensures forms { CallsKeepForms }
    ensures probes_rise { ProbesRise }
{}

/// What the equations make of the form of a state is the form of a state: after a statement, after those of an
/// instruction and after its end, after a call and a probe, and along the edges of a branch.
pub fn state_forms_are_kept()
    ensures statements { StatementsKeepStateForms }
    ensures lists { ListsKeepStateForms }
    ensures ends { EndsKeepStateForms }
    ensures calls { CallsKeepStateForms }
    ensures probes { ProbesKeepStateForms }
    ensures edges { EdgesKeepStateForms }
{
    laws_of_values();
}

/// The checks of how control goes on rise with what is known.
pub fn transfer_checks_rise()
    ensures transfers { TransferChecksRise }
    ensures values { ValueChecksRise }
{}
