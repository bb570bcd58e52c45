ghost use Rattle.std.specs.Prelude.{◌≡◌, ◌↔◌, ◌≤◌, length, map, Contains, None, IfOk};
ghost use Rattle.std.specs.List.{All};
ghost use Rattle.vw_layout.specs.declared.functions.Function.{Function};
ghost use Rattle.vw_layout.specs.Layout.{IsWhole};
ghost use Rattle.vw_domain.specs.State.{entry_state};
ghost use Rattle.vw_state.specs.Context.{extent_of, lengths_of};
ghost use Rattle.vw_checks.specs.Modules.{AreSafe};
ghost use Rattle.vw_recheck.specs.Places.{EntriesAscend, IsLowestPlace, IsPlaceOf, IsFirstLeft};

use crate::table::{Used, lowest_in};
use std::alloc::Global;
use vw_bits::OutOfMemory;
use vw_domain::{State, entry_state};
use vw_layout::{Function, Module, functions_ascend};
use vw_state::{
    FunctionTable, Place, Site, Tables, bounds_of, code_of, codes_are_bytes, edges_are_post,
    lengths_of, tables_of,
};
use vw_values::TableList;

/// Whether given tables are safe, whatever made them: they name exactly the declared functions, each with a solution of
/// its equations at whose points no check fails, be it the least or a greater one. `None` exactly where they are.
/// Else the lowest place, by entry, offset and number, at which a check fails, or, with number 0, at which the tables
/// are no solution. This is at offset 0 where the entry state is missing or not covered, where the points of a table do
/// not ascend, where a declared function has no table, and where the function is not declared; otherwise it is at the
/// point from which an edge does not land below its target's state. That the place is the lowest is known of tables that stand
/// by ascending entries, as `Tables` says. Each edge is looked at once, and nothing is solved. OutOfMemory where the
/// allocator refuses a request.
pub fn recheck(
    alloc: Global,
    loaded: &Module,
    tables: &Tables,
) -> Result<Option<Place>, OutOfMemory>
    requires { IsWhole loaded.now }
    ensures safe { IfOk result (λ found. (found ≡ None) ↔ AreSafe loaded.now tables.now) }
    ensures lowest { EntriesAscend tables.now → IfOk result (IsLowestPlace loaded.now tables.now) }
{
    functions_ascend();
    edges_are_post();
    codes_are_bytes(loaded);
    let extents = tables_of(alloc, loaded)?;
    let lengths = lengths_of(alloc, loaded)?;
    let start = entry_state(alloc)?;
    let mut used = Used::new(alloc);
    let functions = loaded.functions.as_slice();
    let given = tables.functions.as_slice();
    let mut number = 0;
    while number < functions.len() && number < given.len() {
        let function = &functions[number];
        let table = &given[number];
        if let Some(place) = place_of(
            alloc,
            loaded,
            &extents,
            lengths.as_slice(),
            function,
            table,
            &start,
            &mut used,
        )? {
            return Ok(Some(place));
        }
        number += 1;
    }
    Ok(first_left(functions, given, number))
}

// The place of a declared function beside a given table. The tables of the module are given by address and number of
// entries, and by the number of entries alone. `start` is the state at an entry.
fn place_of(
    alloc: Global,
    loaded: &Module,
    extents: &TableList,
    lengths: &[u64],
    function: &Function,
    table: &FunctionTable,
    start: &State,
    used: &mut Used,
) -> Result<Option<Place>, OutOfMemory>
    requires whole { IsWhole loaded.now }
    requires tables { extents.now ≡ map extent_of loaded.now.tables }
    requires few { length extents.now ≤ 64 }
    requires lengths { lengths.now ≡ lengths_of loaded.now.tables }
    requires short { All (λ n. n ≤ 65536) lengths.now }
    requires declared { Contains loaded.now.functions function.now }
    requires start { start.now ≡ entry_state }
    ensures { IfOk result (IsPlaceOf loaded.now function.now table.now) }
{
    if function.entry != table.entry {
        return Ok(Some(no_table(function.entry.min(table.entry))));
    }
    let code = code_of(&loaded.image, function.entry, function.size);
    let bounds = bounds_of(alloc, code, lengths)?;
    let site = Site {
        image: &loaded.image,
        tables: extents,
        entry: function.entry,
        size: function.size,
        bounds: &bounds,
    };
    match lowest_in(alloc, loaded, &site, table.states.as_slice(), start, used)? {
        Some((at, check)) => Ok(Some(Place {
            entry: function.entry,
            at,
            check,
        })),
        None => Ok(None),
    }
}

// The place of a function that has no table, and of a table that has no function.
fn no_table(entry: u64) -> Place
    ensures entry { result.entry ≡ entry }
    ensures at { result.at ≡ 0 }
    ensures check { result.check ≡ 0 }
{
    Place {
        entry,
        at: 0,
        check: 0,
    }
}

// The place of the first function or table that is left from a number on.
fn first_left(functions: &[Function], tables: &[FunctionTable], number: usize) -> Option<Place>
    ensures { IsFirstLeft functions.now tables.now number result }
{
    if number < functions.len() {
        Some(no_table(functions[number].entry))
    } else if number < tables.len() {
        Some(no_table(tables[number].entry))
    } else {
        None
    }
}
