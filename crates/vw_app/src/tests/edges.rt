use super::files::image_of;
use super::smallest::smallest_module;
use std::test::Fail;
use vw_bits::List;
use vw_domain::{Register, State, entry_state};
use vw_insn::Reg;
use vw_solver::Edges;
use vw_stack::Offset;
use vw_state::{Site, bounds_of, code_of, leaves_function, post};
use vw_stmt::{Flow, Var};
use vw_values::Value;

/// Eight bytes of code, the first one lowest, the size of the function that they begin with, a point, and
/// the targets of its edges.
type Case = (u64, u32, u32, &'static [u32]);

const CASES: [Case; 26] = [
    // nop, and behind its end
    (0x90, 1, 0, &[1]),
    (0x90, 1, 1, &[]),
    (0x90, 1, 2, &[]),
    (0x90, 0, 0, &[]),
    // mov eax, [rdi + 8], and a point within it
    (0x08_478b, 3, 0, &[3]),
    (0x08_478b, 3, 1, &[]),
    (0x08_478b, 2, 0, &[]),
    // ud2, ret
    (0x0b0f, 2, 0, &[]),
    (0xc3, 1, 0, &[]),
    // jumps to the start, to the last byte, to the end, and below the start
    (0xfeeb, 2, 0, &[0]),
    (0xffeb, 2, 0, &[1]),
    (0x00eb, 2, 0, &[]),
    (0xfdeb, 2, 0, &[]),
    (0x90_fdeb, 3, 0, &[]),
    (0xfc_eb90, 3, 1, &[]),
    (0xfd_eb90, 3, 1, &[0]),
    (0xff_ffff_fbe9, 5, 0, &[0]),
    // branches: the target is first; one to the end; one to the next instruction
    (0xc3_fe74, 3, 0, &[0, 2]),
    (0xc3_0174, 3, 0, &[2]),
    (0xc3_0074, 3, 0, &[2, 2]),
    (0xffff_fffa_840f, 6, 0, &[0, 6]),
    // calls and an addition go on
    (0xe8, 5, 0, &[5]),
    (0xd0ff, 2, 0, &[2]),
    (0xc0_0148, 3, 0, &[3]),
    // a jump through a register, no instruction
    (0xe0ff, 2, 0, &[]),
    (0x06, 1, 0, &[]),
];

/// A jump through rax at 120, the code of a function of two bytes, and at 128 a table of distances: to the first byte, to
/// the last one, to the end, and to the first one again. Zeros stand behind it.
const JUMP: [u8; 40] = [
    0xff, 0xe0, 0, 0, 0, 0, 0, 0, 0xf8, 0xff, 0xff, 0xff, 0xf9, 0xff, 0xff, 0xff, 0xfa, 0xff, 0xff,
    0xff, 0xf8, 0xff, 0xff, 0xff, 0, 0, 0, 0, 0, 0, 0, 0, 0, 0, 0, 0, 0, 0, 0, 0,
];

/// The table of which rax tells, by its address and the number of entries that may be taken, the targets of the edges, and
/// whether the jump may leave the function.
const TABLES: [(u64, u64, &'static [u32], bool); 8] = [
    (128, 1, &[0], false),
    (128, 2, &[0, 1], false),
    // so many are no bound of the function
    (128, 3, &[0, 1], true),
    (128, 4, &[0, 1, 0], true),
    (128, 8, &[0, 1, 0], true),
    (132, 1, &[], true),
    // four bytes from the end, and past it
    (156, 1, &[], true),
    (160, 1, &[], true),
];

/// Whether the edges go to these targets, in their order.
fn go_to(edges: &[(u32, State)], targets: &[u32]) -> bool {
    edges.len() == targets.len()
        && edges
            .iter()
            .zip(targets)
            .all(|(edge, target)| edge.0 == *target)
}

#[test]
fn edges_of_instructions(rt: HostRuntime) -> Result<(), Fail> {
    for (code, size, at, targets) in CASES.iter() {
        let file = smallest_module(rt.alloc(), &code.to_le_bytes())?;
        let image = image_of(rt.alloc(), file).ok_or("an image")?;
        let tables = List::new(rt.alloc());
        let bounds = bounds_of(rt.alloc(), code_of(&image, 120, *size), &[])?;
        let site = Site {
            image: &image,
            tables: &tables,
            entry: 120,
            size: *size,
            bounds: &bounds,
        };
        let state = entry_state(rt.alloc())?;
        let mut edges: Edges<State> = Edges::new(rt.alloc());
        post(rt.alloc(), &site, *at, &state, &mut edges)?;
        assert!(rt;
            go_to(edges.as_slice(), *targets),
            "{code:#x}, {size} bytes, at {at}"
        );
    }
    Ok(())
}

#[test]
fn edges_of_jumps_through_tables(rt: HostRuntime) -> Result<(), Fail> {
    let image = image_of(rt.alloc(), smallest_module(rt.alloc(), &JUMP)?).ok_or("an image")?;
    let tables = List::new(rt.alloc());
    let bounds = bounds_of(rt.alloc(), code_of(&image, 120, 2), &[])?;
    let site = Site {
        image: &image,
        tables: &tables,
        entry: 120,
        size: 2,
        bounds: &bounds,
    };
    for (a, k, targets, leaves) in TABLES.iter() {
        let (a, k) = (*a, *k);
        if k == 0 || 65_536 < k {
            return Err("a count of entries".into());
        }
        let mut state = entry_state(rt.alloc())?;
        state.write(
            0,
            Register {
                offset: Offset::Unknown,
                value: Value::JumpDest { a, k },
            },
        );
        let mut edges: Edges<State> = Edges::new(rt.alloc());
        post(rt.alloc(), &site, 0, &state, &mut edges)?;
        assert!(rt; go_to(edges.as_slice(), *targets), "{k} entries at {a}");
        let flow = Flow::JumpReg {
            src: Var::Reg(Reg::Rax),
        };
        assert_eq!(rt;
            leaves_function(&site, 2, flow, &state),
            *leaves,
            "{k} entries at {a}"
        );
    }
    Ok(())
}
