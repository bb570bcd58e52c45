ghost use Rattle.std.specs.Prelude.{IfOk};
ghost use Rattle.vw_names.specs.Division.{IsDivision, IsRefinement};
ghost use Rattle.vw_names.specs.Spot.{NamesPlaces};

use crate::lookup::root_of;
use std::alloc::Global;
use std::collections::BTreeMap;
use vw_bits::OutOfMemory;

// The common refinement of two divisions.
pub fn refine(
    alloc: Global,
    left: &[(u128, u128)],
    right: &[(u128, u128)],
) -> Result<Vec<(u128, u128)>, OutOfMemory>
    requires left { IsDivision left.now }
    requires right { IsDivision right.now }
    ensures division { IfOk result (λ common. IsDivision common.items) }
    ensures refines { IfOk result (λ common. IsRefinement left.now right.now common.items) }
    ensures names { IfOk result (λ common. NamesPlaces left.now → NamesPlaces common.items) }
{
    let mut common = Vec::new(alloc);
    let mut firsts = BTreeMap::new(alloc);
    for entry in left {
        let (place, in_left) = *entry;
        let in_right = root_of(right, place);
        if in_right < place {
            let least = in_left.max(in_right);
            if root_of(left, least) == in_left && root_of(right, least) == in_right {
                common.push((place, least))?;
            } else {
                match firsts.get(&(in_left, in_right)) {
                    Some(first) => common.push((place, *first))?,
                    None => {
                        firsts.insert((in_left, in_right), place)?;
                    }
                }
            }
        }
    }
    Ok(common)
}
