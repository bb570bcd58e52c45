use crate::{Classes, Spot};
use std::alloc::Global;
use std::process::Abort;
use std::test::Fail;
use vw_bits::OutOfMemory;
use vw_lattice::Lattice;

const RAX: Spot = Spot::Reg(0);

const RBX: Spot = Spot::Reg(3);

const R15: Spot = Spot::Reg(15);

const LOW: Spot = Spot::Slot(-24);

const HIGH: Spot = Spot::Slot(-8);

fn classes(alloc: Global, moves: &[(Spot, Spot)]) -> Result<Classes, OutOfMemory> {
    let mut classes = Classes::new(alloc);
    for step in moves {
        classes.follow(step.0, step.1)?;
    }
    Ok(classes)
}

/// Whether the classes of two places or more are these.
fn are(rt: &impl Abort, classes: &Classes, wanted: &[&[Spot]]) -> Result<(), OutOfMemory> {
    let groups = classes.groups()?;
    assert_eq!(rt; groups.as_slice().len(), wanted.len());
    for (group, places) in groups.as_slice().iter().zip(wanted) {
        assert_eq!(rt; group.as_slice(), *places);
    }
    Ok(())
}

/// Each case: places that follow others in turn, and the classes of two places or more.
#[test]
fn places_follow_places(rt: HostRuntime) -> Result<(), Fail> {
    for (moves, wanted) in [
        (&[][..], &[][..]),
        (&[(RAX, RAX)][..], &[][..]),
        (&[(HIGH, RAX)][..], &[&[RAX, HIGH][..]][..]),
        (&[(RAX, HIGH)][..], &[&[RAX, HIGH][..]][..]),
        (&[(RBX, RAX), (RBX, RBX)][..], &[][..]),
        (
            &[(RBX, RAX), (HIGH, RAX), (RAX, RAX)][..],
            &[&[RBX, HIGH][..]][..],
        ),
        (
            &[(RBX, RAX), (HIGH, RAX), (RAX, R15)][..],
            &[&[RAX, R15][..], &[RBX, HIGH][..]][..],
        ),
        (
            &[(R15, RBX), (HIGH, RAX), (LOW, HIGH), (Spot::Flags, R15)][..],
            &[&[RAX, LOW, HIGH][..], &[RBX, R15, Spot::Flags][..]][..],
        ),
        (
            &[
                (Spot::Slot(i64::MAX), Spot::Slot(i64::MIN)),
                (Spot::Slot(0), Spot::Slot(-1)),
                (Spot::Reg(255), Spot::Flags),
            ][..],
            &[
                &[Spot::Reg(255), Spot::Flags][..],
                &[Spot::Slot(i64::MIN), Spot::Slot(i64::MAX)][..],
                &[Spot::Slot(-1), Spot::Slot(0)][..],
            ][..],
        ),
    ] {
        let classes = classes(rt.alloc(), moves)?;
        are(&rt, &classes, wanted)?;
    }
    Ok(())
}

#[test]
fn orders_joins_and_leaves(rt: HostRuntime) -> Result<(), Fail> {
    let all = [(RBX, RAX), (R15, RAX), (LOW, RAX), (HIGH, RAX)];
    let mut left = classes(rt.alloc(), &all)?;
    let right = classes(rt.alloc(), &[(R15, RBX), (HIGH, LOW), (Spot::Flags, RAX)])?;
    assert!(rt; left.same(RBX, HIGH) && !right.same(RBX, HIGH) && right.same(LOW, LOW));
    assert!(rt; !left.leq(&right) && !right.leq(&left));
    assert!(rt; left.join(&right, &())?);
    are(&rt, &left, &[&[RBX, R15], &[LOW, HIGH]])?;
    assert!(rt; right.leq(&left) && !left.leq(&right));
    assert!(rt; !left.join(&right, &())?);
    let mut same = left.copy()?;
    assert!(rt; same.leq(&left) && left.leq(&same));
    same.copy_from(&classes(rt.alloc(), &[(HIGH, RAX)])?)?;
    are(&rt, &same, &[&[RAX, HIGH]])?;

    let mut slots = classes(rt.alloc(), &all)?;
    slots.leave_slots(-24, -8);
    are(&rt, &slots, &[&[RAX, RBX, R15, HIGH]])?;
    slots.leave(RAX);
    are(&rt, &slots, &[&[RBX, R15, HIGH]])?;
    slots.leave_slots(i64::MIN, i64::MAX);
    are(&rt, &slots, &[&[RBX, R15]])?;
    slots.clear();
    are(&rt, &slots, &[])?;
    Ok(())
}
