ghost use Rattle.std.specs.Prelude.{◌≡◌, ◌-◌, ◌<◌, ◌≤◌, length, map, Some, IfOk};
ghost use Rattle.std.specs.List.{All, slice_get};
ghost use Rattle.vw_layout.specs.declared.functions.Function.{Function};
ghost use Rattle.vw_layout.specs.Layout.{IsWhole};
ghost use Rattle.vw_state.specs.Context.{context_of, extent_of, lengths_of, IsSite};
ghost use Rattle.vw_graph.specs.Rounds.{WithinRounds};
ghost use Rattle.vw_verdict.specs.search.Findings.{Found, EndsStable};

use crate::failing::first_failing;
use std::alloc::Global;
use std::sync::ledger::Ledger;
use vw_bits::OutOfMemory;
use vw_checks::stable_rounds_are_safe;
use vw_graph::{Rounds, rounds_at};
use vw_layout::Module;
use vw_solver::Steps;
use vw_state::{
    FunctionTable, Place, Site, bounds_of, code_of, codes_are_bytes, sites_are_in_range,
};
use vw_values::TableList;

/// What is found of a function.
#[derive(Drop)]
pub enum Finding {
    /// Its least table, at whose points no check fails.
    Safe(FunctionTable),
    /// Where a check fails.
    Unsafe(Place),
}

/// The least table of a function where it is safe, else the function's place. The tables of the module are given by
/// address and number of entries, and by the number of entries alone.
pub(crate) fn judge_function<L: Ledger>(
    alloc: Global,
    loaded: &Module,
    tables: &TableList,
    lengths: &[u64],
    number: u32,
    steps: &mut Steps<L>,
) -> Result<Finding, OutOfMemory>
    requires whole { IsWhole loaded.now }
    requires tables { tables.now ≡ map extent_of loaded.now.tables }
    requires few { length tables.now ≤ 64 }
    requires lengths { lengths.now ≡ lengths_of loaded.now.tables }
    requires short { All (λ n. n ≤ 65536) lengths.now }
    requires declared { number < length loaded.now.functions }
    ensures found { IfOk result (λ finding. (f : Function)
        → slice_get loaded.now.functions number ≡ Some f
        → Found (context_of loaded.now f) finding) }
    ensures ticks { (f : Function) → slice_get loaded.now.functions number ≡ Some f
        → WithinRounds (context_of loaded.now f) (steps.new - steps.old) }
    ensures counts { steps.old ≤ steps.new }
{
    let function = &loaded.functions.as_slice()[number as usize];
    let code = code_of(&loaded.image, function.entry, function.size);
    let bounds = bounds_of(alloc, code, lengths)?;
    let site = Site {
        image: &loaded.image,
        tables,
        entry: function.entry,
        size: function.size,
        bounds: &bounds,
    };
    match rounds_at(alloc, loaded, number, site, steps)? {
        Rounds::Stopped { table, at, check } => Ok(unsafe_at(table.entry, at, check)),
        Rounds::Stable(table) => judge_table(alloc, loaded, number, &site, table),
    }
}

fn unsafe_at(entry: u64, at: u32, check: u8) -> Finding
    ensures { result ≡ Finding.Unsafe (record { entry = entry; at = at; check = check }) }
{
    Finding::Unsafe(Place { entry, at, check })
}

// What is found of a function whose rounds are stable with this table.
fn judge_table(
    alloc: Global,
    loaded: &Module,
    number: u32,
    site: &Site,
    table: FunctionTable,
) -> Result<Finding, OutOfMemory>
    requires whole { IsWhole loaded.now }
    requires declared { number < length loaded.now.functions }
    requires site { (f : Function) → slice_get loaded.now.functions number ≡ Some f
        → IsSite (context_of loaded.now f) site.now }
    requires few { length site.now.tables.now ≤ 64 }
    requires stable { (f : Function) → slice_get loaded.now.functions number ≡ Some f
        → EndsStable (context_of loaded.now f) table }
    ensures { IfOk result (λ finding. (f : Function)
        → slice_get loaded.now.functions number ≡ Some f
        → Found (context_of loaded.now f) finding) }
{
    stable_rounds_are_safe();
    sites_are_in_range(loaded);
    codes_are_bytes(loaded);
    match first_failing(alloc, loaded, site, table.states.as_slice())? {
        Some((at, check)) => Ok(unsafe_at(table.entry, at, check)),
        None => Ok(Finding::Safe(table)),
    }
}
