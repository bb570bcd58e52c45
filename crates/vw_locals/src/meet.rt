ghost use Rattle.std.specs.Prelude.{◌≡◌, ◌<ℤ◌, ◌↔◌, IsTrue, IfOk, OnOk};
ghost use Rattle.vw_locals.specs.Ranges.{IsRanges, IsCommon, IsPart, PutsPart};

use std::alloc::Global;
use vw_bits::OutOfMemory;

// The range of the offsets that are in two ranges. Its last is below its first where there are none.
fn part(l: &(i64, i64), r: &(i64, i64)) -> (i64, i64)
    ensures { IsPart l.now r.now result }
{
    (l.0.max(r.0), l.1.min(r.1))
}

// Appends the range of the offsets that are in two ranges, where there are any.
fn put_part(common: &mut Vec<(i64, i64)>, l: &(i64, i64), r: &(i64, i64)) -> Result<(), OutOfMemory>
    ensures { OnOk result (PutsPart l.now r.now common.old.items common.new.items) }
{
    let part = part(l, r);
    if part.0 <= part.1 {
        common.push(part)?;
    }
    Ok(())
}

// Whether the first range ends below the end of the second.
fn ends_first(l: &(i64, i64), r: &(i64, i64)) -> bool
    ensures { IsTrue result ↔ l.now.1 <ℤ r.now.1 }
{
    l.1 < r.1
}

// The offsets that are in both sets, in one pass over both.
pub fn meet(
    alloc: Global,
    left: &[(i64, i64)],
    right: &[(i64, i64)],
) -> Result<Vec<(i64, i64)>, OutOfMemory>
    requires left { IsRanges left.now }
    requires right { IsRanges right.now }
    ensures ranges { IfOk result (λ common. IsRanges common.items) }
    ensures common { IfOk result (λ common. IsCommon left.now right.now common.items) }
{
    let mut common = Vec::new(alloc);
    let mut i = 0;
    let mut j = 0;
    while i < left.len() && j < right.len() {
        put_part(&mut common, &left[i], &right[j])?;
        if ends_first(&left[i], &right[j]) {
            i += 1;
        } else {
            j += 1;
        }
    }
    Ok(common)
}
