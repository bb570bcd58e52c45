ghost use Rattle.std.specs.Prelude.{◌≡◌, ◌↔◌, IsTrue};
ghost use Rattle.vw_names.specs.Division.{IsDivision, division_below};

use crate::lookup::root_of;

// Whether two divisions have the same entries, by which they are one.
pub fn are_same(low: &[(u128, u128)], high: &[(u128, u128)]) -> bool
    ensures { IsTrue result ↔ (low.now ≡ high.now) }
{
    low == high
}

// Whether the first division puts together what the second does. Divisions are most often equal, and then nothing is
// looked for.
pub fn is_coarser(low: &[(u128, u128)], high: &[(u128, u128)]) -> bool
    requires low { IsDivision low.now }
    requires high { IsDivision high.now }
    ensures { IsTrue result ↔ division_below low.now high.now }
{
    if are_same(low, high) {
        return true;
    }
    for entry in high {
        if root_of(low, entry.0) != root_of(low, entry.1) {
            return false;
        }
    }
    true
}
