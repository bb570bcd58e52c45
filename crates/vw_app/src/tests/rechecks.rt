use super::files::{Patch, file_of};
use std::alloc::Global;
use std::test::Fail;
use vw_bits::{List, OutOfMemory};
use vw_domain::{Fact, PartsError, State, StateParts, entry_state};
use vw_layout::Module;
use vw_recheck::recheck;
use vw_state::{FunctionTable, Place, PointState, Tables};
use vw_values::Value;

/// A file of 400 bytes with two functions, at addresses 120 and 124: one PT_LOAD with R and X, from 0 at address 0; eight
/// bytes of code; a null symbol and those of the functions; strings; the headers of three sections.
const FILE: [Patch; 32] = [
    (0, 4, 0x464c_457f),
    (4, 1, 2),
    (5, 1, 1),
    (16, 2, 3),
    (18, 2, 62),
    (32, 8, 64),
    (40, 8, 208),
    (54, 2, 56),
    (56, 2, 1),
    (58, 2, 64),
    (60, 2, 3),
    (64, 4, 1),
    (68, 4, 5),
    (96, 8, 128),
    (104, 8, 128),
    (112, 8, 4096),
    (152, 4, 1),
    (156, 1, 0x12),
    (158, 2, 1),
    (160, 8, 120),
    (176, 4, 1),
    (182, 2, 1),
    (184, 8, 124),
    (201, 1, 0x66),
    (276, 4, 2),
    (296, 8, 128),
    (304, 8, 72),
    (312, 4, 2),
    (328, 8, 24),
    (340, 4, 3),
    (360, 8, 200),
    (368, 8, 3),
];

/// What a table gives a point: the state of a function's entry, the same with another value in rax or rdi, or none, which
/// leaves the table without this point.
#[derive(Clone, Copy)]
enum Known {
    Nothing,
    Entry,
    Rax(Value),
    Rdi(Value),
}

/// A point of a given table: the entry of its function, its offset, and its state.
type Given = (u64, u32, Known);

/// Eight bytes of code, the first one lowest, the sizes of the functions at 120 and at 124, 0 for none there, the points
/// of the given tables, and the lowest place at which they are not safe: (entry, offset, number).
type Case = (u64, u64, u64, &'static [Given], Option<(u64, u32, u8)>);

const LOOP: u64 = 0xfeeb;

const CLEAR: u64 = 0xc3_c031;

const LOOP_AND_STEP: u64 = 0xc3_90_feeb;

const HALF_WORD: u64 = 0xc3_90_f8_478b;

const TWO: u64 = 0xc3_0000_00c3;

const ENTRY: Known = Known::Entry;

const NOTHING: Known = Known::Nothing;

const BELOW_3: Known = Known::Rax(Value::Below(3));

/// Tables of one function.
const ONE_FUNCTION: [Case; 22] = [
    // a jump to itself: the least table, a greater one, and one whose state is lower than at the entry
    (LOOP, 2, 0, &[(120, 0, ENTRY)], None),
    (LOOP, 2, 0, &[(120, 0, Known::Rdi(Value::Any))], None),
    (
        LOOP,
        2,
        0,
        &[(120, 0, Known::Rax(Value::Const(0)))],
        Some((120, 0, 0)),
    ),
    // without an entry state, and without a table
    (LOOP, 2, 0, &[(120, 0, NOTHING)], Some((120, 0, 0))),
    (LOOP, 2, 0, &[], Some((120, 0, 0))),
    // functions that are not declared, below and above
    (
        LOOP,
        2,
        0,
        &[(64, 0, ENTRY), (120, 0, ENTRY)],
        Some((64, 0, 0)),
    ),
    (
        LOOP,
        2,
        0,
        &[(120, 0, ENTRY), (200, 0, ENTRY)],
        Some((200, 0, 0)),
    ),
    // above the function nothing decodes
    (
        LOOP,
        2,
        0,
        &[(120, 0, ENTRY), (120, 7, ENTRY)],
        Some((120, 7, 1)),
    ),
    // xor eax, eax and a return: the least table, and a greater one
    (
        CLEAR,
        3,
        0,
        &[(120, 0, ENTRY), (120, 2, Known::Rax(Value::Const(0)))],
        None,
    ),
    (
        CLEAR,
        3,
        0,
        &[(120, 0, ENTRY), (120, 2, Known::Rax(Value::Below(4)))],
        None,
    ),
    // the edge lands on nothing, on a state that is not above, and on a bound that is not the function's
    (CLEAR, 3, 0, &[(120, 0, ENTRY)], Some((120, 0, 0))),
    (
        CLEAR,
        3,
        0,
        &[(120, 0, ENTRY), (120, 2, Known::Rax(Value::Const(1)))],
        Some((120, 0, 0)),
    ),
    (
        CLEAR,
        3,
        0,
        &[(120, 0, ENTRY), (120, 2, BELOW_3)],
        Some((120, 0, 0)),
    ),
    // behind an endless loop, where no edge comes, any bound may be named; the edges from there are looked at
    (
        LOOP_AND_STEP,
        4,
        0,
        &[(120, 0, ENTRY), (120, 3, BELOW_3)],
        None,
    ),
    (
        LOOP_AND_STEP,
        4,
        0,
        &[(120, 0, ENTRY), (120, 2, BELOW_3), (120, 3, ENTRY)],
        None,
    ),
    (
        LOOP_AND_STEP,
        4,
        0,
        &[(120, 0, ENTRY), (120, 2, BELOW_3)],
        Some((120, 2, 0)),
    ),
    (
        LOOP_AND_STEP,
        4,
        0,
        &[(120, 0, ENTRY), (120, 2, BELOW_3), (120, 3, BELOW_3)],
        Some((120, 2, 0)),
    ),
    // half of the word below the heap's base: a check alone, beside an edge, and below one
    (
        HALF_WORD,
        5,
        0,
        &[(120, 0, ENTRY), (120, 3, ENTRY), (120, 4, ENTRY)],
        Some((120, 0, 4)),
    ),
    (HALF_WORD, 5, 0, &[(120, 0, ENTRY)], Some((120, 0, 0))),
    (
        HALF_WORD,
        5,
        0,
        &[(120, 0, ENTRY), (120, 3, ENTRY)],
        Some((120, 0, 4)),
    ),
    // points that do not ascend
    (
        LOOP_AND_STEP,
        4,
        0,
        &[(120, 3, ENTRY), (120, 0, ENTRY)],
        Some((120, 0, 0)),
    ),
    (
        LOOP,
        2,
        0,
        &[(120, 0, ENTRY), (120, 0, ENTRY)],
        Some((120, 0, 0)),
    ),
];

/// Tables of two functions.
const TWO_FUNCTIONS: [Case; 7] = [
    // both, one of them left out, and one between them that is not declared
    (TWO, 1, 1, &[(120, 0, ENTRY), (124, 0, ENTRY)], None),
    (TWO, 1, 1, &[(120, 0, ENTRY)], Some((124, 0, 0))),
    (TWO, 1, 1, &[(124, 0, ENTRY)], Some((120, 0, 0))),
    (
        TWO,
        1,
        1,
        &[(120, 0, ENTRY), (122, 0, ENTRY), (124, 0, ENTRY)],
        Some((122, 0, 0)),
    ),
    // without an entry state, also behind a check of the other, and out of order
    (
        TWO,
        1,
        1,
        &[(120, 0, ENTRY), (124, 0, NOTHING)],
        Some((124, 0, 0)),
    ),
    (
        TWO,
        1,
        1,
        &[(120, 0, ENTRY), (120, 1, ENTRY), (124, 0, NOTHING)],
        Some((120, 1, 1)),
    ),
    (
        TWO,
        1,
        1,
        &[(124, 0, ENTRY), (120, 0, ENTRY)],
        Some((120, 0, 0)),
    ),
];

fn file(alloc: Global, code: u64, first: u64, second: u64) -> Result<List<u8>, OutOfMemory> {
    let kind = if second == 0 { 0x10 } else { 0x12 };
    let changed = [
        (120, 8, code),
        (168, 8, first),
        (180, 1, kind),
        (192, 8, second),
    ];
    Ok(List::from_vec(file_of(alloc, 400, &[&FILE, &changed])?))
}

/// The values of the registers at a function's entry, but for one of them.
fn values(alloc: Global, register: usize, value: Value) -> Result<List<Value>, OutOfMemory> {
    let mut values = List::new(alloc);
    for number in 0..16u8 {
        let entry = match number {
            3 | 5 | 12..=15 => Value::Entry(number),
            4 => Value::Any,
            7 => Value::HeapBase,
            _ => Value::Num,
        };
        values.push(if number as usize == register {
            value
        } else {
            entry
        })?;
    }
    Ok(values)
}

fn state_with(alloc: Global, register: usize, value: Value) -> Result<State, PartsError> {
    let mut offsets = List::new(alloc);
    for number in 0..16u8 {
        offsets.push(if number == 4 { Some(0) } else { None })?;
    }
    let parts = StateParts {
        offsets,
        values: values(alloc, register, value)?,
        probed: 0,
        written: List::new(alloc),
        slots: List::new(alloc),
        classes: List::new(alloc),
        fact: Fact::Unknown,
    };
    State::of(alloc, &parts)
}

fn state(alloc: Global, known: Known) -> Result<State, PartsError> {
    match known {
        Known::Rax(value) => state_with(alloc, 0, value),
        Known::Rdi(value) => state_with(alloc, 7, value),
        _ => Ok(entry_state(alloc)?),
    }
}

/// The table of a function among given points.
fn table(alloc: Global, given: &[Given], entry: u64) -> Result<FunctionTable, PartsError> {
    let mut states = List::new(alloc);
    for (function, at, known) in given {
        if *function == entry && !matches!(known, Known::Nothing) {
            states.push(PointState {
                at: *at,
                state: state(alloc, *known)?,
            })?;
        }
    }
    Ok(FunctionTable { entry, states })
}

/// The tables of given points, of which those of one function stand together.
fn tables(alloc: Global, given: &[Given]) -> Result<Tables, PartsError> {
    let mut functions = List::new(alloc);
    let mut last = None;
    for (entry, _, _) in given {
        if last != Some(*entry) {
            functions.push(table(alloc, given, *entry)?)?;
        }
        last = Some(*entry);
    }
    Ok(Tables { functions })
}

fn place(found: Option<Place>) -> Option<(u64, u32, u8)> {
    match found {
        Some(place) => Some((place.entry, place.at, place.check)),
        None => None,
    }
}

/// What is found of the given tables of a case.
fn found(alloc: Global, case: &Case) -> Option<Option<(u64, u32, u8)>> {
    let (code, first, second, given, _) = case;
    let bytes = file(alloc, *code, *first, *second).ok()?;
    let loaded = Module::read(alloc, bytes).ok()?;
    let given = tables(alloc, given).ok()?;
    Some(place(recheck(alloc, &loaded, &given).ok()?))
}

#[test]
fn tables_of_one_function(rt: HostRuntime) -> Result<(), Fail> {
    for (index, case) in ONE_FUNCTION.iter().enumerate() {
        assert!(rt; found(rt.alloc(), case) == Some(case.4), "case {index}");
    }
    Ok(())
}

#[test]
fn tables_of_two_functions(rt: HostRuntime) -> Result<(), Fail> {
    for (index, case) in TWO_FUNCTIONS.iter().enumerate() {
        assert!(rt; found(rt.alloc(), case) == Some(case.4), "case {index}");
    }
    Ok(())
}
