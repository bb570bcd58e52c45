ghost use Rattle.std.specs.Prelude.{◌≡◌, ◌<ℤ◌, ◌≤ℤ◌, ◌+ℤ◌, pos, ◌↔◌, IsTrue, ◌<◌, ◌≤◌, ◌∷◌, ◌++◌, take, drop, length, vec_len, OnOk, OnErr};
ghost use Rattle.std.specs.List.{AllWithin};
ghost use Rattle.vw_locals.specs.Ranges.{IsRanges, IsApart, IsReached, IsHull, IsAdded};

use crate::search::{beginning_up_to, ending_below};
use vw_bits::OutOfMemory;

// Whether the second range begins right behind the first, which ends below it.
fn is_adjacent(a: &(i64, i64), b: &(i64, i64)) -> bool
    requires { a.now.1 <ℤ b.now.0 }
    ensures { IsTrue result ↔ ((a.now.1 +ℤ pos 1) ≡ b.now.0) }
{
    let end = a.1;
    let begin = b.0;
    end + 1 == begin
}

// The number of ranges that stay apart below a range.
fn apart_below(ranges: &[(i64, i64)], range: &(i64, i64)) -> usize
    requires { IsRanges ranges.now }
    ensures within { result ≤ length ranges.now }
    ensures below { AllWithin (λ r. IsApart r range.now) ranges.now 0 result }
    ensures above { AllWithin (λ r. IsReached r range.now) ranges.now result (length ranges.now) }
{
    let at = ending_below(ranges, range.0);
    if at > 0 && is_adjacent(&ranges[at - 1], range) {
        at - 1
    } else {
        at
    }
}

// The number of ranges that do not stay apart above a range.
fn touched_up_to(ranges: &[(i64, i64)], range: &(i64, i64)) -> usize
    requires { IsRanges ranges.now }
    ensures within { result ≤ length ranges.now }
    ensures below { AllWithin (λ r. IsReached range.now r) ranges.now 0 result }
    ensures above { AllWithin (λ r. IsApart range.now r) ranges.now result (length ranges.now) }
{
    let at = beginning_up_to(ranges, range.1);
    if at < ranges.len() && is_adjacent(range, &ranges[at]) {
        at + 1
    } else {
        at
    }
}

// The least range that has two ranges.
fn hull(a: &(i64, i64), b: &(i64, i64)) -> (i64, i64)
    ensures { IsHull a.now b.now result }
{
    (a.0.min(b.0), a.1.max(b.1))
}

// Puts a range in the place of some others.
fn replace(ranges: &mut Vec<(i64, i64)>, from: usize, to: usize, merged: &(i64, i64))
    requires some { from < to }
    requires within { to ≤ vec_len ranges.old }
    ensures { ranges.new.items ≡ take from ranges.old.items ++ merged.now ∷ drop to ranges.old.items }
{
    ranges[from] = *merged;
    for other in from + 1..to {
        let _merged = ranges.remove(from + 1);
    }
}

// Adds a range: it is merged with those that it touches.
pub fn merge(ranges: &mut Vec<(i64, i64)>, range: &(i64, i64)) -> Result<(), OutOfMemory>
    requires ranges { IsRanges ranges.old.items }
    requires filled { range.now.0 ≤ℤ range.now.1 }
    ensures ranges { OnOk result (IsRanges ranges.new.items) }
    ensures adds { OnOk result (IsAdded range.now ranges.old.items ranges.new.items) }
    ensures err { OnErr result (ranges.new.items ≡ ranges.old.items) }
{
    let from = apart_below(ranges, range);
    let to = touched_up_to(ranges, range);
    if from < to {
        let first = hull(range, &ranges[from]);
        let merged = hull(&first, &ranges[to - 1]);
        replace(ranges, from, to, &merged);
    } else {
        ranges.insert(from, *range)?;
    }
    Ok(())
}
