//! Reports of the functions and modules of which the verdict is tested, safe or not: written, read and checked.

ghost use Rattle.std.specs.Prelude.{◌≡◌, ◌<◌, ◌≤◌, length};
ghost use Rattle.vw_layout.specs.Layout.{IsWhole};

use super::fixtures::{SWITCH_ABOVE, answer, expect, module_of, patch, two_files};
use super::verdicts::{FRAMES, LIMITS, SWITCHES, VERDICTS};
use super::whole::{CALLS, calling_module};
use crate::listing::last_table;
use crate::status::Status;
use std::alloc::Global;
use std::marker::Brand;
use std::process::Abort;
use std::sync::ledger::{Blank, Ledger};
use std::test::Fail;
use vw_bits::{List, OutOfMemory, Text};
use vw_graph::rounds;
use vw_lattice::Lattice;
use vw_layout::Module;
use vw_make::make;
use vw_report::{read_report, write_report};
use vw_solver::Steps;
use vw_state::{FunctionTable, PointState, Tables};

/// Functions for which `check` names another place than the verdict. It names the lowest place at which the tables are
/// not safe, whatever fails there, while in a verdict checks 1 and 2 go before all others.
const LOWER: [(&str, &str); 3] = [
    // half of the word below the heap's base is read at 0, below the end of the code at 7
    ("8b87f8ffffff90", "unsafe, f+0x0, C4 address\n"),
    // the same, below a jump out of the function at 3
    ("8b47f8eb7f", "unsafe, f+0x0, C4 address\n"),
    // The rounds stop at the jump, since one of its four targets is outside, so its cases have no states. Yet the other
    // three are edges of it, and two of them lead to points without a state: number 0 at the same point.
    (SWITCH_ABOVE, "unsafe, f+0x15, C0 table\n"),
];

/// The place that `check` names where nothing is changed in the module of calls: the switch reads words that are bound to
/// an import, below the jump through what was read.
const BOUND_WORDS: &str = "unsafe, g+0xe, C4 address\n";

/// Where the last of eight functions that are made from a number calls the probe: behind `mov eax` of five bytes. The
/// functions begin at 608, behind eleven relocations, each at a multiple of 16.
const PROBE_CALL: usize = 816 + 5;

/// What is changed in these functions, with the verdict: they are safe, and without its call of the probe the last one
/// writes below the guard.
const MADE: [(&[u8], u8, &str); 2] = [
    (&[], 0, "safe, functions 8\n"),
    (
        &[0x90, 0x90, 0x90, 0x90, 0x90],
        1,
        "unsafe, guest_func_7+0x11, C3 depth\n",
    ),
];

// The tables of the last rounds of a module's functions.
fn tables_of(alloc: Global, loaded: &Module) -> Result<Tables, OutOfMemory>
    requires whole { IsWhole loaded.now }
    requires few { length loaded.now.functions ≤ 65536 }
{
    tables_from::<Brand>(alloc, loaded, Blank::new(1))
}

// The same, with a blank for the count of steps, which nobody reads.
fn tables_from<L: Ledger>(
    alloc: Global,
    loaded: &Module,
    blank: Blank,
) -> Result<Tables, OutOfMemory>
    requires whole { IsWhole loaded.now }
    requires name { blank.name ≡ L.name }
    requires parts { blank.parts ≡ L.parts }
    requires some { 0 < L.parts }
    requires few { length loaded.now.functions ≤ 65536 }
{
    let mut steps: Steps<L> = Steps::from_blank(blank);
    let mut functions = List::new(alloc);
    for number in 0..loaded.functions.as_slice().len() as u32 {
        let rounds = rounds(alloc, loaded, number, &mut steps)?;
        functions.push(last_table(rounds))?;
    }
    Ok(Tables { functions })
}

// Whether two points are one, with equal states.
fn are_equal(one: &PointState, other: &PointState) -> bool {
    one.at == other.at && one.state.leq(&other.state) && other.state.leq(&one.state)
}

// Whether two tables are of one function and give the same points equal states.
fn are_same(one: &FunctionTable, other: &FunctionTable) -> bool {
    let (states, others) = (one.states.as_slice(), other.states.as_slice());
    one.entry == other.entry
        && states.len() == others.len()
        && states.iter().zip(others).all(|(x, y)| are_equal(x, y))
}

// The report of the tables of a module's last rounds, which is read to the same tables, with the same text.
fn report_of(rt: &(impl Abort + AllocGlobal), file: &[u8]) -> Result<Text, Fail> {
    let alloc = rt.alloc();
    let loaded = Module::read(alloc, List::from_vec(file.to_vec(alloc)?))?;
    assert!(rt; loaded.functions.as_slice().len() <= 65_536);
    let tables = tables_of(alloc, &loaded)?;
    let text = write_report(alloc, &tables)?;
    let read = read_report(alloc, text.as_slice())?;
    let (given, found) = (tables.functions.as_slice(), read.functions.as_slice());
    assert_eq!(rt; given.len(), found.len());
    assert!(rt; given.iter().zip(found).all(|(x, y)| are_same(x, y)));
    assert_eq!(rt; write_report(alloc, &read)?.as_slice(), text.as_slice());
    Ok(text)
}

// Asserts what is answered of a module: by `check` of the report of its tables, this status and place, and by `report`,
// that text where the status is 0, and else the verdict.
fn expect_report(
    rt: &(impl Abort + AllocGlobal),
    file: &[u8],
    (status, verdict): (u8, &str),
    place: &str,
) -> Result<(), Fail> {
    let text = report_of(rt, file)?;
    let mut shelf = two_files(rt.alloc(), file, text.as_slice(), &[])?;
    expect(rt, &["check", "m", "r"], &mut shelf, &[], (status, place))?;
    let (got, sink) = answer(rt.alloc(), &["report", "m"], &mut shelf, &[])?;
    let wanted = if status == 0 {
        text.as_slice()
    } else {
        verdict.as_bytes()
    };
    assert_eq!(rt; got, Status(status));
    assert_eq!(rt; sink.taken(), wanted);
    Ok(())
}

// The place that `check` names for a function by its code.
fn place_of<'a>(hex: &str, verdict: &'a str) -> &'a str {
    for (code, place) in LOWER.iter() {
        if *code == hex {
            return *place;
        }
    }
    verdict
}

// Reports of functions by their code.
fn expect_reports(rt: &(impl Abort + AllocGlobal), cases: &[(&str, u8, &str)]) -> Result<(), Fail> {
    for (hex, status, verdict) in cases.iter() {
        let file = module_of(rt, hex)?;
        let place = place_of(hex, verdict);
        expect_report(rt, file.as_slice(), (*status, *verdict), place)?;
    }
    Ok(())
}

#[test]
fn reports_of_functions(rt: HostRuntime) -> Result<(), Fail> {
    expect_reports(&rt, &VERDICTS)?;
    expect_reports(&rt, &FRAMES)?;
    expect_reports(&rt, &LIMITS)?;
    expect_reports(&rt, &SWITCHES)
}

#[test]
fn reports_of_modules(rt: HostRuntime) -> Result<(), Fail> {
    for (patches, status, verdict) in CALLS.iter() {
        let file = calling_module(rt.alloc(), patches)?;
        let place = if patches.is_empty() {
            BOUND_WORDS
        } else {
            *verdict
        };
        expect_report(&rt, file.as_slice(), (*status, *verdict), place)?;
    }
    Ok(())
}

#[test]
fn reports_of_made_modules(rt: HostRuntime) -> Result<(), Fail> {
    for (piece, status, verdict) in MADE.iter() {
        let made = make(rt.alloc(), 8, 7)?;
        let mut file = made.as_slice().to_vec(rt.alloc())?;
        patch(&mut file, PROBE_CALL, piece);
        expect_report(&rt, file.as_slice(), (*status, *verdict), *verdict)?;
    }
    Ok(())
}
