//! What holds of all values, each the contract of a function that does nothing.

ghost use Rattle.vw_values.specs.Laws.{GreaterStandsForMore, StandsAcrossRegisters, TagsTypeAddresses, TagsMarkIndices, OrderIsReflexive, OrderIsTransitive, OrderIsAntisymmetric, JoinsAreLeast, NumbersJoin, JoinsRise, LeastBoundsRise, RanksAreSmall};
ghost use Rattle.vw_values.specs.Laws.{SumsAreValid, SumsRise, SumsStand, DifferencesAreValid, DifferencesRise, DifferencesStand};
ghost use Rattle.vw_values.specs.Laws.{LowsAreValid, LowsRise, LowsStand, NarrowsAreValid, NarrowsRise, NarrowsStand};
ghost use Rattle.vw_values.specs.Laws.{AndsAreValid, AndsRise, AndsStand, ScalesAreValid, ScalesRise, ScalesStand, ShiftsAreValid, ShiftsRise, ShiftsStand};
ghost use Rattle.vw_values.specs.Laws.{WholeCutIsGreatest, HalfCutIsGreatest, BelowIsValid, BelowRises, BelowStands, EqualIsValid, EqualRises, EqualStands};

/// Values in their ranges are ordered, whatever bounds they name.
pub fn values_are_ordered()
    ensures reflexive { OrderIsReflexive }
    ensures transitive { OrderIsTransitive }
    ensures antisymmetric { OrderIsAntisymmetric }
{}

/// A greater value stands for more numbers, and only a tag's value depends on the registers.
pub fn values_stand()
    ensures greater { GreaterStandsForMore }
    ensures registers { StandsAcrossRegisters }
{}

/// A tag that was read of an entry tells the type of what it was read at.
pub fn tag_tests_are_sound()
    ensures addresses { TagsTypeAddresses }
    ensures indices { TagsMarkIndices }
{}

/// The join of values in their ranges is the least valid value above both, whatever bounds they name, and a number where
/// both are numbers.
pub fn joins_are_least()
    ensures least { JoinsAreLeast }
    ensures numbers { NumbersJoin }
{}

/// The join of greater values is greater.
pub fn joins_rise()
    ensures rise { JoinsRise }
    ensures bounds { LeastBoundsRise }
{}

/// A value rises at most eight times more often than there are bounds.
pub fn ranks_are_small()
    ensures { RanksAreSmall }
{}

/// A sum of valid values is valid, rises with them, and stands for the sums of what they stand for.
pub fn sums_are_sound()
    ensures valid { SumsAreValid }
    ensures rise { SumsRise }
    ensures stand { SumsStand }
{}

/// So is a difference.
pub fn differences_are_sound()
    ensures valid { DifferencesAreValid }
    ensures rise { DifferencesRise }
    ensures stand { DifferencesStand }
{}

/// Low bits of valid values are valid, rise with them, and stand for the low bits of what they stand for.
pub fn low_bits_are_sound()
    ensures lows_valid { LowsAreValid }
    ensures lows_rise { LowsRise }
    ensures lows_stand { LowsStand }
    ensures narrows_valid { NarrowsAreValid }
    ensures narrows_rise { NarrowsRise }
    ensures narrows_stand { NarrowsStand }
{}

/// The bits that valid values share are valid, rise with them, and stand for the bits that their numbers share.
pub fn ands_are_sound()
    ensures valid { AndsAreValid }
    ensures rise { AndsRise }
    ensures stand { AndsStand }
{}

/// Multiples of valid values are valid, rise with them, and stand for the multiples of what they stand for.
pub fn multiples_are_sound()
    ensures scales_valid { ScalesAreValid }
    ensures scales_rise { ScalesRise }
    ensures scales_stand { ScalesStand }
    ensures shifts_valid { ShiftsAreValid }
    ensures shifts_rise { ShiftsRise }
    ensures shifts_stand { ShiftsStand }
{}

/// What x < k leaves of a valid value is valid, rises with it, and stands for each of its numbers that passes.
pub fn below_is_sound()
    ensures valid { BelowIsValid }
    ensures rises { BelowRises }
    ensures stands { BelowStands }
{}

/// So is what x = k leaves.
pub fn equal_is_sound()
    ensures valid { EqualIsValid }
    ensures rises { EqualRises }
    ensures stands { EqualStands }
{}

/// What x < k leaves of a number is the greatest number that is below it and below the bound.
pub fn below_is_greatest()
    ensures whole { WholeCutIsGreatest }
    ensures half { HalfCutIsGreatest }
{}
