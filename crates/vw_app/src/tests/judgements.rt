ghost use Rattle.std.specs.Prelude.{◌≡◌, ◌<◌};

use super::rounds::are_at;
use super::smallest::smallest_module;
use std::alloc::Global;
use std::marker::Brand;
use std::sync::ledger::{Blank, Ledger};
use std::test::Fail;
use vw_bits::List;
use vw_layout::Module;
use vw_solver::Steps;
use vw_state::Verdict;
use vw_verdict::judge;

/// A switch with three cases: `cmp esi, 3`, `jae` to the last `ret`, `mov eax, esi`, `lea rcx, [table]`,
/// `movsxd rax, [rcx + rax * 4]`, `add rax, rcx`, `jmp rax`, three times `ret`; the table of distances to these, and one
/// that leads out of the function.
const SWITCH: [u8; 42] = [
    0x83, 0xfe, 0x03, 0x73, 0x14, 0x89, 0xf0, 0x48, 0x8d, 0x0d, 0x0c, 0, 0, 0, 0x48, 0x63, 0x04,
    0x81, 0x48, 0x01, 0xc8, 0xff, 0xe0, 0xc3, 0xc3, 0xc3, 0xfd, 0xff, 0xff, 0xff, 0xfe, 0xff, 0xff,
    0xff, 0xff, 0xff, 0xff, 0xff, 0, 0x10, 0, 0,
];
/// The same with `ja`, so that the fourth entry is read too.
const WIDE_SWITCH: [u8; 42] = [
    0x83, 0xfe, 0x03, 0x77, 0x14, 0x89, 0xf0, 0x48, 0x8d, 0x0d, 0x0c, 0, 0, 0, 0x48, 0x63, 0x04,
    0x81, 0x48, 0x01, 0xc8, 0xff, 0xe0, 0xc3, 0xc3, 0xc3, 0xfd, 0xff, 0xff, 0xff, 0xfe, 0xff, 0xff,
    0xff, 0xff, 0xff, 0xff, 0xff, 0, 0x10, 0, 0,
];

/// The code of the function, the place where a check fails, and where none does the points of the least table.
type Case = (&'static [u8], Option<(u32, u8)>, &'static [u32]);

const CASES: [Case; 22] = [
    (&[0xc3], None, &[0]),
    (&[0x0f, 0x0b], None, &[0]),
    // a branch to itself, a jump to itself
    (&[0x74, 0xfe, 0xc3], None, &[0, 2]),
    (&[0xeb, 0xfe], None, &[0]),
    // a branch over a byte that begins no instruction, and back
    (&[0x74, 0x01, 0x06, 0xeb, 0xfe], Some((2, 1)), &[]),
    (&[0xeb, 0x01, 0x06, 0xeb, 0xfe], None, &[0, 3]),
    // out of the function
    (&[0x75, 0x02, 0xc3], Some((0, 2)), &[]),
    (&[0xeb, 0x7f], Some((0, 2)), &[]),
    (&[0x90], Some((1, 1)), &[]),
    // below the heap's base; the jump goes to the entry
    (
        &[0x74, 0x01, 0x90, 0x8b, 0x47, 0xf8, 0xeb, 0xf8],
        Some((3, 4)),
        &[],
    ),
    (
        &[0x74, 0x01, 0x90, 0x8b, 0x47, 0x08, 0xeb, 0xf8],
        None,
        &[0, 2, 3, 6],
    ),
    // check 4 at 0, check 1 at 3: the rounds come first
    (&[0x8b, 0x47, 0xf8, 0x90], Some((4, 1)), &[]),
    // check 4 at 3 and at 0: the lowest point
    (
        &[0x8b, 0x47, 0xf8, 0x8b, 0x47, 0xf8, 0xc3],
        Some((0, 4)),
        &[],
    ),
    // check 4 at a point that no run comes to
    (&[0xeb, 0x03, 0x8b, 0x47, 0xf8], Some((0, 2)), &[]),
    (&[0xeb, 0x03, 0x8b, 0x47, 0xf8, 0xc3], None, &[0, 5]),
    // an addition, and an access at its sum
    (&[0x48, 0x01, 0xc0, 0xc3], None, &[0, 3]),
    (&[0x48, 0x01, 0xc0, 0x8b, 0, 0xc3], Some((3, 4)), &[]),
    // a call of no function, a call and a jump through a register of which nothing is known
    (&[0xe8, 0, 0, 0, 0, 0xc3], Some((0, 7)), &[]),
    (&[0x90, 0xff, 0xe0], Some((1, 2)), &[]),
    (&[0xff, 0xd0, 0xc3], Some((0, 7)), &[]),
    (&SWITCH, None, &[0, 3, 5, 7, 14, 18, 21, 23, 24, 25]),
    (&WIDE_SWITCH, Some((21, 2)), &[]),
];

/// The verdict on the module of a file. `None` where it is no module or memory is refused.
fn judged<L: Ledger>(alloc: Global, bytes: List<u8>, blank: Blank) -> Option<Verdict>
    requires name { blank.name ≡ L.name }
    requires parts { blank.parts ≡ L.parts }
    requires some { 0 < L.parts }
{
    let loaded = Module::read(alloc, bytes).ok()?;
    let mut steps: Steps<L> = Steps::from_blank(blank);
    judge(alloc, &loaded, &mut steps).ok()
}

/// Whether the verdict names this place of a module with one function at 120, or has this table for it.
fn is_verdict(verdict: &Verdict, place: Option<(u32, u8)>, points: &[u32]) -> bool {
    match verdict {
        Verdict::Unsafe(found) => found.entry == 120 && Some((found.at, found.check)) == place,
        Verdict::Safe(tables) => match tables.functions.as_slice() {
            [table] => place.is_none()
                && table.entry == 120
                && are_at(table.states.as_slice(), points),
            _ => false,
        },
    }
}

#[test]
fn verdicts_on_functions(rt: HostRuntime) -> Result<(), Fail> {
    for (code, place, points) in CASES.iter() {
        assert!(rt; code.len() <= 64);
        let bytes = List::from_vec(smallest_module(rt.alloc(), *code)?);
        let found = judged::<Brand>(rt.alloc(), bytes, Blank::new(1)).ok_or("judge")?;
        assert!(rt; is_verdict(&found, *place, *points), "{code:?}");
    }
    Ok(())
}
