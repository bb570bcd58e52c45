ghost use Rattle.std.specs.Prelude.{◌≡◌, ◌<ℤ◌, ◌≤ℤ◌, ◌≤◌, ◌↔◌, length, IsTrue};
ghost use Rattle.std.specs.List.{AllWithin};
ghost use Rattle.vw_locals.specs.Ranges.{IsRanges, IsContained, written_below};

// The number of ranges that end below an offset.
pub fn ending_below(ranges: &[(i64, i64)], x: i64) -> usize
    requires { IsRanges ranges.now }
    ensures within { result ≤ length ranges.now }
    ensures below { AllWithin (λ range. range.1 <ℤ x) ranges.now 0 result }
    ensures above { AllWithin (λ range. x ≤ℤ range.1) ranges.now result (length ranges.now) }
{
    let mut low = 0;
    let mut high = ranges.len();
    while low < high {
        let middle = low + (high - low) / 2;
        if ranges[middle].1 < x {
            low = middle + 1;
        } else {
            high = middle;
        }
    }
    low
}

// The number of ranges that begin at an offset or below it.
pub fn beginning_up_to(ranges: &[(i64, i64)], x: i64) -> usize
    requires { IsRanges ranges.now }
    ensures within { result ≤ length ranges.now }
    ensures below { AllWithin (λ range. range.0 ≤ℤ x) ranges.now 0 result }
    ensures above { AllWithin (λ range. x <ℤ range.0) ranges.now result (length ranges.now) }
{
    let mut low = 0;
    let mut high = ranges.len();
    while low < high {
        let middle = low + (high - low) / 2;
        if ranges[middle].0 <= x {
            low = middle + 1;
        } else {
            high = middle;
        }
    }
    low
}

// Whether all offsets of a range are in the set.
pub fn contains(ranges: &[(i64, i64)], range: &(i64, i64)) -> bool
    requires ranges { IsRanges ranges.now }
    requires filled { range.now.0 ≤ℤ range.now.1 }
    ensures { IsTrue result ↔ IsContained ranges.now range.now }
{
    let at = ending_below(ranges, range.0);
    at < ranges.len() && is_within(range, &ranges[at])
}

// Whether one range is in another.
fn is_within(range: &(i64, i64), outer: &(i64, i64)) -> bool
    ensures { IsTrue result ↔ ((outer.now.0 ≤ℤ range.now.0) × (range.now.1 ≤ℤ outer.now.1)) }
{
    outer.0 <= range.0 && range.1 <= outer.1
}

// Whether the first set has the offsets of the second.
pub fn has_all(low: &[(i64, i64)], high: &[(i64, i64)]) -> bool
    requires low { IsRanges low.now }
    requires high { IsRanges high.now }
    ensures { IsTrue result ↔ written_below low.now high.now }
{
    for range in high {
        if !contains(low, range) {
            return false;
        }
    }
    true
}

// Whether two sets have the same ranges, by which they are one.
pub fn are_same(ranges: &[(i64, i64)], other: &[(i64, i64)]) -> bool
    ensures { IsTrue result ↔ (ranges.now ≡ other.now) }
{
    ranges == other
}
