use crate::Written;
use std::alloc::Global;
use std::test::Fail;
use vw_bits::OutOfMemory;
use vw_lattice::Lattice;

fn written(alloc: Global, ranges: &[(i64, i64)]) -> Result<Written, OutOfMemory> {
    let mut set = Written::new(alloc);
    for range in ranges {
        set.add(range.0, range.1)?;
    }
    Ok(set)
}

/// Each case: the ranges that are added, by first offset and one past the last, and the maximal ranges of the
/// set, by first and last offset.
#[test]
fn ranges_are_maximal(rt: HostRuntime) -> Result<(), Fail> {
    for (added, maximal) in [
        (&[(-8, 0)][..], &[(-8, -1)][..]),
        (&[(-8, -8), (0, -8)][..], &[][..]),
        (&[(-8, -4), (-4, 0)][..], &[(-8, -1)][..]),
        (&[(-4, 0), (-8, -4)][..], &[(-8, -1)][..]),
        (&[(-8, -4), (-3, 0)][..], &[(-8, -5), (-3, -1)][..]),
        (
            &[(-20, -18), (-16, -14), (-12, -10), (-17, -13)][..],
            &[(-20, -19), (-17, -14), (-12, -11)][..],
        ),
        (
            &[(-20, -18), (-16, -14), (-12, -10), (-18, -12)][..],
            &[(-20, -11)][..],
        ),
        (
            &[(-4294967296, -4294967295), (-1, 0)][..],
            &[(-4294967296, -4294967296), (-1, -1)][..],
        ),
        (&[(i64::MIN, i64::MAX)][..], &[(i64::MIN, i64::MAX - 1)][..]),
    ] {
        let set = written(rt.alloc(), added)?;
        for (i, range) in maximal.iter().enumerate() {
            assert_eq!(rt; set.range(i), Some(*range));
        }
        assert_eq!(rt; set.range(maximal.len()), None);
    }
    Ok(())
}

#[test]
fn orders_and_joins(rt: HostRuntime) -> Result<(), Fail> {
    let mut more = written(rt.alloc(), &[(-32, -16), (-8, 0)])?;
    let less = written(rt.alloc(), &[(-24, -20), (-12, -4)])?;
    assert!(rt; more.holds(-32, -16) && more.holds(5, 5) && !more.holds(-17, -7));
    assert!(rt; !more.leq(&less) && !less.leq(&more));
    assert!(rt; more.join(&less, &())?);
    assert_eq!(rt;
        (more.range(0), more.range(1), more.range(2)),
        (Some((-24, -21)), Some((-8, -5)), None)
    );
    assert!(rt; less.leq(&more) && !more.leq(&less));
    assert!(rt; !more.join(&less, &())?);
    let mut same = more.copy()?;
    assert!(rt; same.leq(&more) && more.leq(&same));
    for other in [less, Written::new(rt.alloc())] {
        same.copy_from(&other)?;
        assert!(rt; same.leq(&other) && other.leq(&same));
    }
    Ok(())
}
