ghost use Rattle.std.specs.Prelude.{◌≡◌, ◌<◌, ◌≤◌, [], ◌∷◌, ◌++◌, length, vec_len, slice_index_or, slice_set, IfOk, OnOk};
ghost use Rattle.std.specs.List.{AllPairs, AllWithin};
ghost use Rattle.vw_names.specs.Division.{IsDivision};
ghost use Rattle.vw_names.specs.Groups.{first_place, AreGroups, PutsPlace};
ghost use Rattle.vw_names.specs.Spot.{IsPlaceNumber, NamesPlaces};

use crate::spot::{Spot, number_of, spot_of};
use std::alloc::Global;
use vw_bits::{List, OutOfMemory};

// The number of the first place of a list, 0 where it has none.
fn first_of(group: &List<Spot>) -> u128
    ensures { result ≡ first_place group.now }
{
    match group.as_slice() {
        [first, ..] => number_of(*first),
        [] => 0,
    }
}

// The number of lists whose first places are below `place`.
fn count_groups_below(groups: &[List<Spot>], place: u128) -> usize
    requires { AllPairs (λ earlier later. first_place earlier < first_place later) groups.now }
    ensures within { result ≤ length groups.now }
    ensures below { AllWithin (λ group. first_place group < place) groups.now 0 result }
    ensures above { AllWithin (λ group. place ≤ first_place group) groups.now result (length groups.now) }
{
    let mut low = 0;
    let mut high = groups.len();
    while low < high {
        let middle = low + (high - low) / 2;
        if first_of(&groups[middle]) < place {
            low = middle + 1;
        } else {
            high = middle;
        }
    }
    low
}

// Appends a place to a list.
fn grow(groups: &mut Vec<List<Spot>>, at: usize, spot: Spot) -> Result<(), OutOfMemory>
    requires { at < vec_len groups.old }
    ensures { OnOk result (groups.new.items ≡ slice_set groups.old.items at (slice_index_or groups.old.items at [] ++ spot ∷ [])) }
{
    groups[at].push(spot)?;
    Ok(())
}

// A list of two places.
fn pair_of(alloc: Global, first: Spot, second: Spot) -> Result<List<Spot>, OutOfMemory>
    ensures { IfOk result (λ group. group ≡ first ∷ second ∷ []) }
{
    let mut group = List::new(alloc);
    group.push(first)?;
    group.push(second)?;
    Ok(group)
}

// Puts a place behind the list that begins with `least`, or behind `least` in a list of its own.
fn put_place(
    alloc: Global,
    groups: &mut Vec<List<Spot>>,
    place: u128,
    least: u128,
) -> Result<(), OutOfMemory>
    requires ordered { AllPairs (λ earlier later. first_place earlier < first_place later) groups.old.items }
    requires place { IsPlaceNumber place }
    requires least { IsPlaceNumber least }
    ensures { OnOk result (PutsPlace place least groups.old.items groups.new.items) }
{
    let at = count_groups_below(groups, least);
    let spot = spot_of(place);
    if at < groups.len() && first_of(&groups[at]) == least {
        grow(groups, at, spot)?;
    } else {
        let group = pair_of(alloc, spot_of(least), spot)?;
        groups.insert(at, group)?;
    }
    Ok(())
}

// The classes of two places or more.
pub fn groups(alloc: Global, entries: &[(u128, u128)]) -> Result<Vec<List<Spot>>, OutOfMemory>
    requires division { IsDivision entries.now }
    requires places { NamesPlaces entries.now }
    ensures { IfOk result (λ groups. AreGroups entries.now groups.items) }
{
    let mut groups = Vec::new(alloc);
    for entry in entries {
        put_place(alloc, &mut groups, entry.0, entry.1)?;
    }
    Ok(groups)
}
