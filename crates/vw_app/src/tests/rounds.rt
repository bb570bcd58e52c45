ghost use Rattle.std.specs.Prelude.{◌≡◌, ◌<◌};

use super::smallest::smallest_module;
use std::alloc::Global;
use std::marker::Brand;
use std::sync::ledger::{Blank, Ledger};
use std::test::Fail;
use vw_bits::List;
use vw_graph::{Rounds, rounds};
use vw_layout::Module;
use vw_solver::Steps;
use vw_state::PointState;

/// The code of a function, the place where the rounds stop, and the points of the last table.
type Case = (&'static [u8], Option<(u32, u8)>, &'static [u32]);

const CASES: [Case; 22] = [
    (&[0xc3], None, &[0]),
    (&[0x0f, 0x0b], None, &[0]),
    // loops
    (&[0x74, 0xfe, 0xc3], None, &[0, 2]),
    (&[0xeb, 0xfe], None, &[0]),
    (
        &[0x74, 0x01, 0x90, 0x8b, 0x47, 0xf8, 0xeb, 0xf8],
        None,
        &[0, 2, 3, 6],
    ),
    // out of the function: behind its end, to its end, below its start
    (&[0x75, 0x02, 0xc3], Some((0, 2)), &[0, 2]),
    (&[0xeb, 0x7f], Some((0, 2)), &[0]),
    (&[0xeb, 0x00], Some((0, 2)), &[0]),
    (&[0xeb, 0xfd], Some((0, 2)), &[0]),
    // on behind the end, and to a byte that begins no instruction
    (&[0x90], Some((1, 1)), &[0, 1]),
    (&[0x06], Some((0, 1)), &[0]),
    (&[0xeb, 0x01, 0x06], Some((0, 2)), &[0]),
    (&[0xeb, 0x00, 0x06], Some((2, 1)), &[0, 2]),
    // two places: the lowest one, whichever check
    (&[0x74, 0x02, 0x90, 0x90], Some((0, 2)), &[0, 2, 3, 4]),
    (&[0x74, 0x01, 0x06, 0xeb, 0x7f], Some((2, 1)), &[0, 2, 3]),
    // the branch is never taken: no number is below 0
    (
        &[0x31, 0xc0, 0x83, 0xf8, 0x00, 0x72, 0xfc, 0xc3],
        None,
        &[0, 2, 5, 7],
    ),
    // a call goes on, and a jump through a register may leave
    (&[0xe8, 0x00, 0x00, 0x00, 0x00, 0xc3], None, &[0, 5]),
    (&[0xff, 0xe0], Some((0, 2)), &[0]),
    // a switch over three cases, whose table has a fourth entry that leads out of the function; with `ja` for `jae`
    // it may be taken
    (
        &[
            0x83, 0xfe, 0x03, 0x73, 0x14, 0x89, 0xf0, 0x48, 0x8d, 0x0d, 0x0c, 0x00, 0x00, 0x00,
            0x48, 0x63, 0x04, 0x81, 0x48, 0x01, 0xc8, 0xff, 0xe0, 0xc3, 0xc3, 0xc3, 0xfd, 0xff,
            0xff, 0xff, 0xfe, 0xff, 0xff, 0xff, 0xff, 0xff, 0xff, 0xff, 0x00, 0x10, 0x00, 0x00,
        ],
        None,
        &[0, 3, 5, 7, 14, 18, 21, 23, 24, 25],
    ),
    (
        &[
            0x83, 0xfe, 0x03, 0x77, 0x14, 0x89, 0xf0, 0x48, 0x8d, 0x0d, 0x0c, 0x00, 0x00, 0x00,
            0x48, 0x63, 0x04, 0x81, 0x48, 0x01, 0xc8, 0xff, 0xe0, 0xc3, 0xc3, 0xc3, 0xfd, 0xff,
            0xff, 0xff, 0xfe, 0xff, 0xff, 0xff, 0xff, 0xff, 0xff, 0xff, 0x00, 0x10, 0x00, 0x00,
        ],
        Some((21, 2)),
        &[0, 3, 5, 7, 14, 18, 21, 25],
    ),
    // a switch of which a case is another switch, and one in a loop
    (
        &[
            0x83, 0xfe, 0x02, 0x73, 0x12, 0x89, 0xf0, 0x48, 0x8d, 0x0d, 0x22, 0x00, 0x00, 0x00,
            0x48, 0x63, 0x04, 0x81, 0x48, 0x01, 0xc8, 0xff, 0xe0, 0xc3, 0x83, 0xfe, 0x02, 0x73,
            0xfa, 0x89, 0xf0, 0x48, 0x8d, 0x0d, 0x12, 0x00, 0x00, 0x00, 0x48, 0x63, 0x04, 0x81,
            0x48, 0x01, 0xc8, 0xff, 0xe0, 0xc3, 0xe8, 0xff, 0xff, 0xff, 0xe7, 0xff, 0xff, 0xff,
            0xf7, 0xff, 0xff, 0xff, 0xdf, 0xff, 0xff, 0xff,
        ],
        None,
        &[0, 3, 5, 7, 14, 18, 21, 23, 24, 27, 29, 31, 38, 42, 45, 47],
    ),
    (
        &[
            0x83, 0xfe, 0x02, 0x73, 0x14, 0x89, 0xf0, 0x48, 0x8d, 0x0d, 0x0c, 0x00, 0x00, 0x00,
            0x48, 0x63, 0x04, 0x81, 0x48, 0x01, 0xc8, 0xff, 0xe0, 0xeb, 0xe7, 0xc3, 0xfd, 0xff,
            0xff, 0xff, 0xff, 0xff, 0xff, 0xff,
        ],
        None,
        &[0, 3, 5, 7, 14, 18, 21, 23, 25],
    ),
];

/// The rounds over the first function of a file. `None` where there is none or memory is refused.
fn first_rounds<L: Ledger>(alloc: Global, bytes: List<u8>, blank: Blank) -> Option<Rounds>
    requires name { blank.name ≡ L.name }
    requires parts { blank.parts ≡ L.parts }
    requires some { 0 < L.parts }
{
    let loaded = Module::read(alloc, bytes).ok()?;
    if loaded.functions.as_slice().len() == 0 {
        return None;
    }
    let mut steps: Steps<L> = Steps::from_blank(blank);
    rounds(alloc, &loaded, 0, &mut steps).ok()
}

fn stop(rounds: &Rounds) -> Option<(u32, u8)> {
    match rounds {
        Rounds::Stable(_) => None,
        Rounds::Stopped { at, check, .. } => Some((*at, *check)),
    }
}

fn states(rounds: &Rounds) -> &[PointState] {
    match rounds {
        Rounds::Stable(table) => table.states.as_slice(),
        Rounds::Stopped { table, .. } => table.states.as_slice(),
    }
}

/// Whether these points have a state, in their order.
pub fn are_at(states: &[PointState], points: &[u32]) -> bool {
    states.len() == points.len() && states.iter().zip(points).all(|(state, at)| state.at == *at)
}

#[test]
fn rounds_of_functions(rt: HostRuntime) -> Result<(), Fail> {
    for (code, place, points) in CASES.iter() {
        assert!(rt; code.len() <= 64);
        let bytes = List::from_vec(smallest_module(rt.alloc(), *code)?);
        let found = first_rounds::<Brand>(rt.alloc(), bytes, Blank::new(1)).ok_or("rounds")?;
        assert_eq!(rt; stop(&found), *place, "{code:?}");
        assert!(rt; are_at(states(&found), *points), "{code:?}");
    }
    Ok(())
}
