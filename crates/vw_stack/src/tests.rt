use crate::{Depth, Offset};
use std::test::Fail;
use vw_bits::OutOfMemory;
use vw_lattice::Lattice;

/// Whether `low` is below `high`, whether a join with `high` changes a copy of `low`, and the join.
fn joined<L: Lattice<Bounds = ()>>(low: &L, high: &L) -> Result<(bool, bool, L), OutOfMemory> {
    let mut value = low.copy()?;
    let changed = value.join(high, &())?;
    Ok((low.leq(high), changed, value))
}

#[test]
fn orders_and_joins(rt: HostRuntime) -> Result<(), Fail> {
    let near = Offset::Known(-8);
    let far = Offset::Known(i64::MIN);
    for (low, high, answer) in [
        (near, near, (true, false, near)),
        (near, far, (false, true, Offset::Unknown)),
        (near, Offset::Unknown, (true, true, Offset::Unknown)),
        (Offset::Unknown, near, (false, false, Offset::Unknown)),
        (
            Offset::Unknown,
            Offset::Unknown,
            (true, false, Offset::Unknown),
        ),
    ] {
        assert_eq!(rt; joined(&low, &high)?, answer);
    }
    for (low, high, answer) in [
        (4096, 4096, (true, false, 4096)),
        (8192, 4096, (true, true, 4096)),
        (4096, 8192, (false, false, 4096)),
        (u64::MAX, 0, (true, true, 0)),
    ] {
        let (below, changed, join) = joined(&Depth(low), &Depth(high))?;
        assert_eq!(rt; (below, changed, join.0), answer);
    }
    Ok(())
}
