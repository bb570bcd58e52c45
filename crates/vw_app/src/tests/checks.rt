ghost use Rattle.std.specs.Prelude.{◌≤◌, length};
ghost use Rattle.vw_insn.specs.Listed.{IsListed};
ghost use Rattle.vw_layout.specs.Layout.{IsWhole};

use super::files::{Patch, file_of};
use super::fixtures::patch;
use std::alloc::{AllocError, Global};
use std::test::Fail;
use vw_bits::List;
use vw_checks::check;
use vw_domain::{State, entry_state};
use vw_insn::Insn;
use vw_layout::Module;
use vw_lift::lift;
use vw_solver::Edges;
use vw_state::{
    Site, apply, bounds_of, code_of, flow_of, instruction_at, lengths_of, post, tables_of,
};
use vw_stmt::Flow;
use vw_values::{Value, Via};

/// A file of 440 bytes with a function at address 376: one PT_LOAD with R and X, all of the file at address 0; a null
/// symbol and one of the function; strings; the headers of three sections; up to 64 bytes of code.
const FILE: [Patch; 29] = [
    (0, 4, 0x464c_457f),
    (4, 1, 2),
    (5, 1, 1),
    (16, 2, 3),
    (18, 2, 62),
    (32, 8, 64),
    (40, 8, 184),
    (54, 2, 56),
    (56, 2, 1),
    (58, 2, 64),
    (60, 2, 3),
    (64, 4, 1),
    (68, 4, 5),
    (96, 8, 440),
    (104, 8, 440),
    (112, 8, 4096),
    (152, 4, 1),
    (156, 1, 0x12),
    (158, 2, 1),
    (160, 8, 376),
    (177, 1, 0x66),
    (252, 4, 2),
    (272, 8, 128),
    (280, 8, 48),
    (288, 4, 2),
    (304, 8, 24),
    (316, 4, 3),
    (336, 8, 176),
    (344, 8, 3),
];

/// The code of a function, one instruction behind the other, and the first point at which a check fails with the
/// lowest number there; none where no check fails from the start to the end.
type Case = (&'static [u8], Option<(u32, u8)>);

const CASES: [Case; 72] = [
    // code: NOP, a byte that begins no instruction, and an instruction that the end cuts off
    (&[0x90], None),
    (&[0x06], Some((0, 1))),
    (&[0x90, 0x8b], Some((1, 1))),
    // jump: to the start, to the last byte, to the end, below the start; a branch; a jump through a register that holds a
    // number, and one whose memory operand, too, is not known
    (&[0xeb, 0xfe], None),
    (&[0xeb, 0xff], None),
    (&[0xeb, 0x00], Some((0, 2))),
    (&[0xeb, 0xfd], Some((0, 2))),
    (&[0x74, 0xfe, 0xc3], None),
    (&[0x75, 0x01, 0xc3], Some((0, 2))),
    (&[0xff, 0xe0], Some((0, 2))),
    (&[0xff, 0x26], Some((0, 2))),
    // probed: a write at the guard's first byte, and below it
    (&[0x48, 0x89, 0x84, 0x24, 0x00, 0xe0, 0xff, 0xff], None),
    (
        &[0x48, 0x89, 0x84, 0x24, 0xff, 0xdf, 0xff, 0xff],
        Some((0, 3)),
    ),
    // the same of a call's push; a call with rsp at no known offset
    (
        &[
            0x48, 0x81, 0xec, 0xf8, 0x1f, 0x00, 0x00, 0xe8, 0xf4, 0xff, 0xff, 0xff,
        ],
        None,
    ),
    (
        &[
            0x48, 0x81, 0xec, 0xf9, 0x1f, 0x00, 0x00, 0xe8, 0xf4, 0xff, 0xff, 0xff,
        ],
        Some((7, 3)),
    ),
    (
        &[0x48, 0x89, 0xc4, 0xe8, 0xf8, 0xff, 0xff, 0xff],
        Some((3, 3)),
    ),
    // address: reads of the heap, of the word below it, of half of it, and of a number; writes of the heap and below it
    (&[0x8b, 0x47, 0x08], None),
    (&[0x48, 0x8b, 0x47, 0xf8], None),
    (&[0x8b, 0x47, 0xf8], Some((0, 4))),
    (&[0x48, 0x8b, 0x47, 0xf7], Some((0, 4))),
    (&[0x8b, 0x06], Some((0, 4))),
    (&[0x89, 0x07], None),
    (&[0x48, 0x89, 0x47, 0xf8], Some((0, 4))),
    // the greatest displacement, with an index of 32 bits and without; the last two bytes of the heap,
    // and behind them; an index whose scale leads out of the heap
    (&[0x8b, 0x87, 0xff, 0xff, 0xff, 0x7f], None),
    (
        &[0x89, 0xf6, 0x8b, 0x84, 0x37, 0xff, 0xff, 0xff, 0x7f],
        None,
    ),
    (&[0x89, 0xf6, 0x0f, 0xb7, 0x04, 0x77], None),
    (&[0x89, 0xf6, 0x0f, 0xb7, 0x44, 0x77, 0x01], Some((2, 4))),
    (&[0x89, 0xf6, 0x8b, 0x04, 0xb7], Some((2, 4))),
    // the globals: their first and last bytes, and behind them
    (&[0x48, 0x8b, 0x47, 0xf8, 0x48, 0x8b, 0x00], None),
    (
        &[0x48, 0x8b, 0x47, 0xf8, 0x8b, 0x80, 0xfc, 0x0f, 0x00, 0x00],
        None,
    ),
    (
        &[0x48, 0x8b, 0x47, 0xf8, 0x8b, 0x80, 0xfd, 0x0f, 0x00, 0x00],
        Some((4, 4)),
    ),
    (&[0x48, 0x8b, 0x47, 0xf8, 0x89, 0x40, 0xff], Some((4, 4))),
    // the image: the last byte, behind it; the last word, and one byte further
    (&[0x0f, 0xb6, 0x05, 0x38, 0x00, 0x00, 0x00], None),
    (&[0x0f, 0xb6, 0x05, 0x39, 0x00, 0x00, 0x00], Some((0, 4))),
    (&[0x48, 0x8b, 0x05, 0x31, 0x00, 0x00, 0x00], None),
    (&[0x48, 0x8b, 0x05, 0x32, 0x00, 0x00, 0x00], Some((0, 4))),
    // a table of eight numbers of four bytes at the end of the image, and one byte further; bytes at each eighth address
    (
        &[
            0x48, 0x8d, 0x0d, 0x19, 0x00, 0x00, 0x00, 0x83, 0xe6, 0x07, 0x8b, 0x04, 0xb1,
        ],
        None,
    ),
    (
        &[
            0x48, 0x8d, 0x0d, 0x1a, 0x00, 0x00, 0x00, 0x83, 0xe6, 0x07, 0x8b, 0x04, 0xb1,
        ],
        Some((10, 4)),
    ),
    (
        &[
            0x48, 0x8d, 0x0d, 0x00, 0x00, 0x00, 0x00, 0x83, 0xe6, 0x07, 0x0f, 0xb6, 0x04, 0xf1,
        ],
        None,
    ),
    (
        &[
            0x48, 0x8d, 0x0d, 0x01, 0x00, 0x00, 0x00, 0x83, 0xe6, 0x07, 0x0f, 0xb6, 0x04, 0xf1,
        ],
        Some((10, 4)),
    ),
    // own: writes of the frame's last bytes, and above it; a push there; writes of the image
    (&[0x48, 0x89, 0x44, 0x24, 0xf8], None),
    (&[0x48, 0x89, 0x44, 0x24, 0xf9], Some((0, 5))),
    (&[0x48, 0x89, 0x04, 0x24], Some((0, 5))),
    (&[0x88, 0x44, 0x24, 0xff], None),
    (&[0x50], None),
    (
        &[0x48, 0x83, 0xc4, 0x08, 0xe8, 0xf7, 0xff, 0xff, 0xff],
        Some((4, 5)),
    ),
    (&[0x48, 0x89, 0x05, 0x00, 0x00, 0x00, 0x00], Some((0, 5))),
    (&[0x48, 0x01, 0x05, 0x00, 0x00, 0x00, 0x00], Some((0, 5))),
    // known: reads behind the return address, of its last byte, up to 4,104 bytes above rsp, and one further
    (&[0x48, 0x8b, 0x44, 0x24, 0x08], None),
    (&[0x48, 0x8b, 0x44, 0x24, 0x07], Some((0, 6))),
    (&[0x48, 0x8b, 0x84, 0x24, 0x00, 0x10, 0x00, 0x00], None),
    (
        &[0x48, 0x8b, 0x84, 0x24, 0x01, 0x10, 0x00, 0x00],
        Some((0, 6)),
    ),
    (&[0x58], Some((0, 6))),
    // what was written, what was not, and what was in part; the lower number where a read and a write fail
    (
        &[0x48, 0x89, 0x44, 0x24, 0xf8, 0x48, 0x8b, 0x44, 0x24, 0xf8],
        None,
    ),
    (&[0x48, 0x8b, 0x44, 0x24, 0xf8], Some((0, 6))),
    (
        &[0x89, 0x44, 0x24, 0xf8, 0x48, 0x8b, 0x44, 0x24, 0xf8],
        Some((4, 6)),
    ),
    (
        &[
            0x89, 0x44, 0x24, 0xf8, 0x89, 0x44, 0x24, 0xfc, 0x48, 0x8b, 0x44, 0x24, 0xf8,
        ],
        None,
    ),
    (&[0x48, 0x01, 0x04, 0x24], Some((0, 5))),
    // call: of the function itself, of an address where none begins, without the heap's base, and through a register
    (&[0xe8, 0xfb, 0xff, 0xff, 0xff], None),
    (&[0xe8, 0x00, 0x00, 0x00, 0x00], Some((0, 7))),
    (
        &[0x48, 0x89, 0xf7, 0xe8, 0xf8, 0xff, 0xff, 0xff],
        Some((3, 7)),
    ),
    (&[0xff, 0xd0], Some((0, 7))),
    // return: at the entry, with rsp below, with each register that the caller keeps, with another, and with one restored
    (&[0xc3], None),
    (&[0x50, 0xc3], Some((1, 8))),
    (&[0x48, 0x89, 0xc3, 0xc3], Some((3, 8))),
    (&[0x48, 0x89, 0xc5, 0xc3], Some((3, 8))),
    (&[0x49, 0x89, 0xc4, 0xc3], Some((3, 8))),
    (&[0x49, 0x89, 0xc5, 0xc3], Some((3, 8))),
    (&[0x49, 0x89, 0xc6, 0xc3], Some((3, 8))),
    (&[0x49, 0x89, 0xc7, 0xc3], Some((3, 8))),
    (&[0x48, 0x89, 0xc1, 0xc3], None),
    (&[0x53, 0x48, 0x89, 0xc3, 0x5b, 0xc3], None),
];

/// The code of a function, then bytes behind it; how many of all are code; what rsi and rdi hold at the entry; and the
/// first point at which a check fails, as above.
type RegisterCase = (&'static [u8], u64, Value, Value, Option<(u32, u8)>);

/// The function of the entry of table 0 with the tag 5, and what is known on the way to it.
const FUNCTION: Value = Value::TableFn { table: 0, tag: 5 };

const TYPED: Value = Value::EntryTyped { table: 0, tag: 5 };

/// The destination of a jump through the first two entries of a table at address 378.
const TWO: Value = Value::JumpDest { a: 378, k: 2 };

/// A jump through rsi, and the word at the end of the image that leads to it from there.
const LAST_WORD: [u8; 64] = [
    0xff, 0xe6, 0x00, 0x00, 0x00, 0x00, 0x00, 0x00, 0x00, 0x00, 0x00, 0x00, 0x00, 0x00, 0x00, 0x00,
    0x00, 0x00, 0x00, 0x00, 0x00, 0x00, 0x00, 0x00, 0x00, 0x00, 0x00, 0x00, 0x00, 0x00, 0x00, 0x00,
    0x00, 0x00, 0x00, 0x00, 0x00, 0x00, 0x00, 0x00, 0x00, 0x00, 0x00, 0x00, 0x00, 0x00, 0x00, 0x00,
    0x00, 0x00, 0x00, 0x00, 0x00, 0x00, 0x00, 0x00, 0x00, 0x00, 0x00, 0x00, 0xc4, 0xff, 0xff, 0xff,
];

const REGISTER_CASES: [RegisterCase; 42] = [
    // a call through rsi: of the function of an entry with a tag, in the last table with the greatest tag
    (&[0xff, 0xd6], 2, FUNCTION, Value::HeapBase, None),
    (
        &[0xff, 0xd6],
        2,
        Value::TableFn {
            table: 63,
            tag: 0xffff_fffe,
        },
        Value::HeapBase,
        None,
    ),
    // the same without the heap's base in rdi
    (&[0xff, 0xd6], 2, FUNCTION, Value::HeapAddr, Some((0, 7))),
    (&[0xff, 0xd6], 2, FUNCTION, Value::Num, Some((0, 7))),
    (&[0xff, 0xd6], 2, FUNCTION, Value::Any, Some((0, 7))),
    (&[0xff, 0xd6], 2, FUNCTION, Value::Entry(7), Some((0, 7))),
    // a call of anything else
    (&[0xff, 0xd6], 2, TYPED, Value::HeapBase, Some((0, 7))),
    (
        &[0xff, 0xd6],
        2,
        Value::EntryPtr(0),
        Value::HeapBase,
        Some((0, 7)),
    ),
    (
        &[0xff, 0xd6],
        2,
        Value::TagOf {
            table: 0,
            via: Via::At(1),
        },
        Value::HeapBase,
        Some((0, 7)),
    ),
    (&[0xff, 0xd6], 2, Value::Any, Value::HeapBase, Some((0, 7))),
    (&[0xff, 0xd6], 2, Value::Num, Value::HeapBase, Some((0, 7))),
    (
        &[0xff, 0xd6],
        2,
        Value::Const(376),
        Value::HeapBase,
        Some((0, 7)),
    ),
    (
        &[0xff, 0xd6],
        2,
        Value::Image(376),
        Value::HeapBase,
        Some((0, 7)),
    ),
    (
        &[0xff, 0xd6],
        2,
        Value::HeapBase,
        Value::HeapBase,
        Some((0, 7)),
    ),
    (&[0xff, 0xd6], 2, TWO, Value::HeapBase, Some((0, 7))),
    // a call by the pointer of an entry: with a tag, without, without the heap's base; by its tag; and by eight bytes of
    // which one is behind the entry, where check 4 goes before 7
    (&[0xff, 0x56, 0x08], 3, TYPED, Value::HeapBase, None),
    (
        &[0xff, 0x56, 0x08],
        3,
        Value::EntryPtr(0),
        Value::HeapBase,
        Some((0, 7)),
    ),
    (&[0xff, 0x56, 0x08], 3, TYPED, Value::HeapAddr, Some((0, 7))),
    (&[0xff, 0x16], 2, TYPED, Value::HeapBase, Some((0, 7))),
    (&[0xff, 0x56, 0x09], 3, TYPED, Value::HeapBase, Some((0, 4))),
    // a call through a register with rsp at no known offset, where check 3 goes before 7
    (
        &[0x48, 0x89, 0xc4, 0xff, 0xd6],
        5,
        FUNCTION,
        Value::HeapBase,
        Some((3, 3)),
    ),
    (
        &[0x48, 0x89, 0xc4, 0xff, 0xd6],
        5,
        Value::Num,
        Value::Num,
        Some((3, 3)),
    ),
    // a jump through rsi by a table behind the code: to its start and its last byte; to its end, below its start, as the
    // first and as the second entry; and where the second is not counted
    (
        &[0xff, 0xe6, 0xfe, 0xff, 0xff, 0xff, 0xff, 0xff, 0xff, 0xff],
        2,
        TWO,
        Value::HeapBase,
        None,
    ),
    (
        &[0xff, 0xe6, 0xfe, 0xff, 0xff, 0xff, 0x00, 0x00, 0x00, 0x00],
        2,
        TWO,
        Value::HeapBase,
        Some((0, 2)),
    ),
    (
        &[0xff, 0xe6, 0x00, 0x00, 0x00, 0x00, 0xfe, 0xff, 0xff, 0xff],
        2,
        TWO,
        Value::HeapBase,
        Some((0, 2)),
    ),
    (
        &[0xff, 0xe6, 0xfe, 0xff, 0xff, 0xff, 0xfd, 0xff, 0xff, 0xff],
        2,
        TWO,
        Value::HeapBase,
        Some((0, 2)),
    ),
    (
        &[0xff, 0xe6, 0xfe, 0xff, 0xff, 0xff, 0x00, 0x00, 0x00, 0x00],
        2,
        Value::JumpDest { a: 378, k: 1 },
        Value::HeapBase,
        None,
    ),
    // whatever rdi holds
    (
        &[0xff, 0xe6, 0xfe, 0xff, 0xff, 0xff, 0xff, 0xff, 0xff, 0xff],
        2,
        TWO,
        Value::Num,
        None,
    ),
    // a table whose first entry is the image's last word, and its second one is behind; a table far behind it
    (
        &LAST_WORD,
        2,
        Value::JumpDest { a: 436, k: 1 },
        Value::HeapBase,
        None,
    ),
    (
        &LAST_WORD,
        2,
        Value::JumpDest { a: 436, k: 2 },
        Value::HeapBase,
        Some((0, 2)),
    ),
    (
        &[0xff, 0xe6],
        2,
        Value::JumpDest {
            a: 0xffff_ffff_ffff_ffff,
            k: 1,
        },
        Value::HeapBase,
        Some((0, 2)),
    ),
    // a jump to anything else
    (&[0xff, 0xe6], 2, Value::Any, Value::HeapBase, Some((0, 2))),
    (
        &[0xff, 0xe6],
        2,
        Value::Image(376),
        Value::HeapBase,
        Some((0, 2)),
    ),
    (
        &[0xff, 0xe6],
        2,
        Value::Const(376),
        Value::HeapBase,
        Some((0, 2)),
    ),
    (
        &[0xff, 0xe6],
        2,
        Value::JumpOff { a: 378, k: 2 },
        Value::HeapBase,
        Some((0, 2)),
    ),
    (&[0xff, 0xe6], 2, FUNCTION, Value::HeapBase, Some((0, 2))),
    // a jump by the pointer of an entry, and by eight bytes of which one is behind it, where check 2 goes before 4
    (&[0xff, 0x66, 0x08], 3, TYPED, Value::HeapBase, Some((0, 2))),
    (&[0xff, 0x66, 0x09], 3, TYPED, Value::HeapBase, Some((0, 2))),
    // a switch of two cases, whose table stands behind the code: into the code, and to its end
    (
        &[
            0x48, 0x8d, 0x0d, 0x0c, 0x00, 0x00, 0x00, 0x83, 0xe6, 0x01, 0x48, 0x63, 0x34, 0xb1,
            0x48, 0x01, 0xce, 0xff, 0xe6, 0xed, 0xff, 0xff, 0xff, 0xff, 0xff, 0xff, 0xff,
        ],
        19,
        Value::Num,
        Value::HeapBase,
        None,
    ),
    (
        &[
            0x48, 0x8d, 0x0d, 0x0c, 0x00, 0x00, 0x00, 0x83, 0xe6, 0x01, 0x48, 0x63, 0x34, 0xb1,
            0x48, 0x01, 0xce, 0xff, 0xe6, 0xed, 0xff, 0xff, 0xff, 0x00, 0x00, 0x00, 0x00,
        ],
        19,
        Value::Num,
        Value::HeapBase,
        Some((17, 2)),
    ),
    // a byte of the heap, at rsi and at 8 rsi, where the bound that rsi names is none of the function's
    (
        &[0x88, 0x04, 0x37],
        3,
        Value::Below(3),
        Value::HeapBase,
        None,
    ),
    (
        &[0x88, 0x04, 0xf7],
        3,
        Value::Both(3),
        Value::HeapBase,
        Some((0, 4)),
    ),
];

/// The file with these bytes from the function's entry on, of which the first `size` are its code.
fn file(alloc: Global, code: &[u8], size: u64) -> Result<List<u8>, AllocError> {
    let mut bytes = file_of(alloc, 440, &[&FILE, &[(168, 8, size)]])?;
    patch(&mut bytes, 376, code);
    Ok(List::from_vec(bytes))
}

/// The state at an entry with these values in rsi and rdi. `None` also where they are no values.
fn entry_with(alloc: Global, rsi: Value, rdi: Value) -> Option<State> {
    let mut parts = entry_state(alloc).ok()?.parts().ok()?;
    let mut values = List::new(alloc);
    for (register, value) in parts.values.as_slice().iter().enumerate() {
        let held = match register {
            6 => rsi,
            7 => rdi,
            _ => *value,
        };
        values.push(held).ok()?;
    }
    parts.values = values;
    State::of(alloc, &parts).ok()
}

/// The state with which control goes on from a point to the next instruction, behind a transfer by the last edge.
/// `Some(None)` where it does not go there, and `None` where memory is refused.
fn state_at_next(
    alloc: Global,
    site: &Site,
    at: u32,
    insn: &Insn,
    next: u32,
    before: State,
) -> Option<Option<State>>
    requires few { length site.now.tables.now ≤ 64 }
    requires listed { IsListed insn.now }
{
    if let Flow::Next = flow_of(alloc, insn) {
        let mut state = before;
        apply(site, next, lift(alloc, insn, 0, 0).as_slice(), &mut state).ok()?;
        return Some(Some(state));
    }
    let mut edges: Edges<State> = Edges::new(alloc);
    post(alloc, site, at, &before, &mut edges).ok()?;
    match edges.pop() {
        Some((to, state)) => Some(if to == next { Some(state) } else { None }),
        None => Some(None),
    }
}

/// The first point of a function at which a check fails, with its number, from a state at its start on along its code, as
/// far as control goes on to the next instruction. `None` where memory is refused.
fn walk(alloc: Global, loaded: &Module, site: &Site, start: State) -> Option<Option<(u32, u8)>>
    requires whole { IsWhole loaded.now }
    requires few { length site.now.tables.now ≤ 64 }
{
    let code = site.code();
    let mut state = start;
    let mut at = 0;
    for _ in 0..32 {
        if site.size <= at {
            return Some(None);
        }
        if let Some(number) = check(alloc, loaded, site, at, &state).ok()? {
            return Some(Some((at, number)));
        }
        let (insn, len) = instruction_at(code, at)?;
        let next = at.saturating_add(len);
        match state_at_next(alloc, site, at, &insn, next, state)? {
            Some(behind) => state = behind,
            None => return Some(None),
        }
        at = next;
    }
    None
}

/// The same of the first function of a file. `None` also where there is none.
pub fn walked(alloc: Global, bytes: List<u8>, start: State) -> Option<Option<(u32, u8)>> {
    let loaded = Module::read(alloc, bytes).ok()?;
    let tables = tables_of(alloc, &loaded).ok()?;
    let lengths = lengths_of(alloc, &loaded).ok()?;
    let functions = loaded.functions.as_slice();
    if functions.len() == 0 {
        return None;
    }
    let (entry, size) = (functions[0].entry, functions[0].size);
    let code = code_of(&loaded.image, entry, size);
    let bounds = bounds_of(alloc, code, lengths.as_slice()).ok()?;
    let site = Site {
        image: &loaded.image,
        tables: &tables,
        entry,
        size,
        bounds: &bounds,
    };
    walk(alloc, &loaded, &site, start)
}

#[test]
fn checks_along_code(rt: HostRuntime) -> Result<(), Fail> {
    for (code, failing) in CASES.iter() {
        let bytes = file(rt.alloc(), *code, code.len() as u64)?;
        let found = walked(rt.alloc(), bytes, entry_state(rt.alloc())?).ok_or("check")?;
        assert_eq!(rt; found, *failing, "{code:?}");
    }
    Ok(())
}

#[test]
fn checks_with_registers(rt: HostRuntime) -> Result<(), Fail> {
    for (code, size, rsi, rdi, failing) in REGISTER_CASES.iter() {
        let bytes = file(rt.alloc(), *code, *size)?;
        let start = entry_with(rt.alloc(), *rsi, *rdi).ok_or("state")?;
        let found = walked(rt.alloc(), bytes, start).ok_or("check")?;
        assert_eq!(rt; found, *failing, "{code:?}");
    }
    Ok(())
}
