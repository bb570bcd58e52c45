ghost use Rattle.std.specs.Prelude.{◌-◌, ◌≤◌, IfOk, OnOk};
ghost use Rattle.vw_layout.specs.Layout.{IsWhole};
ghost use Rattle.vw_verdict.specs.search.Findings.{IsJudged, Keeps};
ghost use Rattle.vw_verdict.specs.Ticks.{SumWithin};
ghost use Rattle.vw_verdict.specs.Verdicts.{IsVerdict, IsJudgement};

use crate::function::{Finding, judge_function};
use std::alloc::Global;
use std::sync::ledger::Ledger;
use vw_bits::{List, OutOfMemory};
use vw_checks::{rounds_of_safe_functions_pass, stops_are_checks};
use vw_layout::{Module, functions_ascend};
use vw_solver::Steps;
use vw_state::{
    FunctionTable, Place, Tables, Verdict, codes_are_bytes, lengths_of, sites_are_in_range,
    tables_of,
};

/// The verdict on a module. Safe, with the least tables, exactly where every declared function has a safe
/// table: a solution of its equations at whose points no check fails. Else Unsafe, with the place of the first
/// function by address that has one: the lowest point of its least table at which check 1 or 2 fails, or, where
/// neither fails, the lowest at which another check fails, with the lowest number there. It counts a step for
/// each evaluation of a point: for each function, in one round more than the last round has jumps, each of its points at
/// most once more than a state can rise, whatever the answer. OutOfMemory where the allocator refuses a request; then
/// only the steps have changed.
pub fn judge<L: Ledger>(
    alloc: Global,
    loaded: &Module,
    steps: &mut Steps<L>,
) -> Result<Verdict, OutOfMemory>
    requires { IsWhole loaded.now }
    ensures judged { IfOk result (IsVerdict loaded.now) }
    ensures ticks { SumWithin loaded.now loaded.now.functions (steps.new - steps.old) }
    ensures counts { steps.old ≤ steps.new }
{
    judge_each(alloc, loaded, true, steps)
}

/// The same without the tables, of which one is held at a time: the place of a module that is not safe, and `None`
/// exactly where every declared function has a safe table.
pub fn find_place<L: Ledger>(
    alloc: Global,
    loaded: &Module,
    steps: &mut Steps<L>,
) -> Result<Option<Place>, OutOfMemory>
    requires { IsWhole loaded.now }
    ensures judged { IfOk result (IsJudgement loaded.now) }
    ensures ticks { SumWithin loaded.now loaded.now.functions (steps.new - steps.old) }
    ensures counts { steps.old ≤ steps.new }
{
    match judge_each(alloc, loaded, false, steps)? {
        Verdict::Safe(_) => Ok(None),
        Verdict::Unsafe(place) => Ok(Some(place)),
    }
}

// The verdict, function by function, with the least tables where they are to be kept and else without.
fn judge_each<L: Ledger>(
    alloc: Global,
    loaded: &Module,
    keeps: bool,
    steps: &mut Steps<L>,
) -> Result<Verdict, OutOfMemory>
    requires { IsWhole loaded.now }
    ensures judged { IfOk result (IsJudged keeps loaded.now) }
    ensures ticks { SumWithin loaded.now loaded.now.functions (steps.new - steps.old) }
    ensures counts { steps.old ≤ steps.new }
{
    functions_ascend();
    rounds_of_safe_functions_pass();
    stops_are_checks();
    sites_are_in_range(loaded);
    codes_are_bytes(loaded);
    let extents = tables_of(alloc, loaded)?;
    let lengths = lengths_of(alloc, loaded)?;
    let functions = loaded.functions.as_slice();
    let mut tables = List::new(alloc);
    let mut number = 0;
    while number < functions.len() {
        match judge_function(
            alloc,
            loaded,
            &extents,
            lengths.as_slice(),
            number as u32,
            steps,
        )? {
            Finding::Safe(table) => keep(keeps, &mut tables, table)?,
            Finding::Unsafe(place) => return Ok(Verdict::Unsafe(place)),
        }
        number += 1;
    }
    Ok(Verdict::Safe(Tables { functions: tables }))
}

// Appends a table where tables are to be kept.
fn keep(
    keeps: bool,
    tables: &mut List<FunctionTable>,
    table: FunctionTable,
) -> Result<(), OutOfMemory>
    ensures { OnOk result (Keeps keeps tables.old table tables.new) }
{
    if keeps { tables.push(table) } else { Ok(()) }
}
