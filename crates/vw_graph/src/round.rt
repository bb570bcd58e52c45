ghost use Rattle.std.specs.Prelude.{◌≡◌, ℕ, ◌+◌, ◌-◌, ◌<◌, ◌≤◌, List, [], length, Option, Some, IfOk, Contains};
ghost use Rattle.std.specs.List.{slice_get};
ghost use Rattle.vw_layout.specs.declared.functions.Function.{Function};
ghost use Rattle.vw_layout.specs.Layout.{IsWhole};
ghost use Rattle.vw_state.specs.declared.jumps.JumpTable.{JumpTable};
ghost use Rattle.vw_state.specs.Context.{context_of, IsSite};
ghost use Rattle.vw_state.specs.Laws.{tick_limit};
ghost use Rattle.vw_state.specs.Tables.{AllFit};
ghost use Rattle.vw_graph.specs.search.Graphs.{IsGraph};
ghost use Rattle.vw_graph.specs.search.Jumps.{pairs_of, HasSlots, AreSlots};
ghost use Rattle.vw_graph.specs.search.Course.{IsSolvedWith, IsSeedWith, IsInRound, IsTableOf, LeadsOn, IsStep};
ghost use Rattle.vw_graph.specs.Rounds.{IsRounds, WithinRounds, last_table};
ghost use Rattle.vw_graph.specs.search.Solved.{NoneStops};

use crate::Rounds;
use crate::graph::Graph;
use crate::jumps::new_points;
use crate::solved::point_states;
use crate::walk::{Walk, walk_over};
use std::alloc::Global;
use std::collections::BTreeSet;
use std::sync::ledger::Ledger;
use vw_bits::OutOfMemory;
use vw_domain::{State, entry_is_state, entry_state, state_ranks_are_small};
use vw_layout::{Function, Module, functions_are_code};
use vw_solver::{Solved, Steps, resume, solve};
use vw_state::{
    FunctionTable, JumpTable, Site, bounds_of, code_of, edges_are_post, edges_grow_slowly,
    edges_rise, jumps_stay, lengths_of, sites_are_in_range, tables_of,
};

/// The rounds over a function, given by its number from 0 by address: the table of the last round, and where they stop.
/// The first round has no edges from jumps through registers. Each other one has those to which the tables of jumps lead
/// that the table of the round before tells of; it begins from that table, and there is one only where such an edge is
/// new. It counts a step for each evaluation of a point: in each round, each of the function's points at most once more
/// than a state can rise, and there is at most one round more than there are edges from jumps in the last one. That holds
/// whatever the answer. OutOfMemory where the allocator refuses a request; then only the steps have changed.
pub fn rounds<L: Ledger>(
    alloc: Global,
    loaded: &Module,
    function: u32,
    steps: &mut Steps<L>,
) -> Result<Rounds, OutOfMemory>
    requires whole { IsWhole loaded.now }
    requires declared { function < length loaded.now.functions }
    ensures rounds { IfOk result (λ rounds. (f : Function)
        → slice_get loaded.now.functions function ≡ Some f
        → IsRounds (context_of loaded.now f) rounds) }
    ensures ticks { (f : Function) → slice_get loaded.now.functions function ≡ Some f
        → WithinRounds (context_of loaded.now f) (steps.new - steps.old) }
    ensures counts { steps.old ≤ steps.new }
{
    let tables = tables_of(alloc, loaded)?;
    let lengths = lengths_of(alloc, loaded)?;
    let declared = &loaded.functions.as_slice()[function as usize];
    let code = code_of(&loaded.image, declared.entry, declared.size);
    let bounds = bounds_of(alloc, code, lengths.as_slice())?;
    let site = Site {
        image: &loaded.image,
        tables: &tables,
        entry: declared.entry,
        size: declared.size,
        bounds: &bounds,
    };
    rounds_at(alloc, loaded, function, site, steps)
}

/// The same, where the site of the function is at hand.
pub fn rounds_at<L: Ledger>(
    alloc: Global,
    loaded: &Module,
    function: u32,
    site: Site,
    steps: &mut Steps<L>,
) -> Result<Rounds, OutOfMemory>
    requires whole { IsWhole loaded.now }
    requires declared { function < length loaded.now.functions }
    requires few { length site.tables.now ≤ 64 }
    requires site { (f : Function) → slice_get loaded.now.functions function ≡ Some f
        → IsSite (context_of loaded.now f) site }
    ensures rounds { IfOk result (λ rounds. (f : Function)
        → slice_get loaded.now.functions function ≡ Some f
        → IsRounds (context_of loaded.now f) rounds) }
    ensures fit { IfOk result (λ rounds. (f : Function)
        → slice_get loaded.now.functions function ≡ Some f
        → AllFit (context_of loaded.now f).bounds (last_table rounds).states) }
    ensures ticks { (f : Function) → slice_get loaded.now.functions function ≡ Some f
        → WithinRounds (context_of loaded.now f) (steps.new - steps.old) }
    ensures counts { steps.old ≤ steps.new }
{
    functions_are_code();
    let declared = &loaded.functions.as_slice()[function as usize];
    all_rounds(alloc, loaded, declared, site, steps)
}

/// What comes of a round.
#[derive(Drop)]
pub(crate) enum Step {
    /// The rounds end with it.
    Ends(Rounds),
    /// The next round: the tables of jumps by point, and the table of states.
    GoesOn(Vec<Option<JumpTable>>, Solved<State>),
}

// The rounds over a function of the module.
fn all_rounds<L: Ledger>(
    alloc: Global,
    loaded: &Module,
    declared: &Function,
    site: Site,
    steps: &mut Steps<L>,
) -> Result<Rounds, OutOfMemory>
    requires whole { IsWhole loaded.now }
    requires listed { Contains loaded.now.functions declared.now }
    requires short { declared.now.size ≤ 1048576 }
    requires few { length site.tables.now ≤ 64 }
    requires site { IsSite (context_of loaded.now declared.now) site }
    ensures rounds { IfOk result (IsRounds (context_of loaded.now declared.now)) }
    ensures fit { IfOk result (λ rounds.
        AllFit (context_of loaded.now declared.now).bounds (last_table rounds).states) }
    ensures ticks { WithinRounds (context_of loaded.now declared.now) (steps.new - steps.old) }
    ensures counts { steps.old ≤ steps.new }
{
    let code = site.code();
    let mut jumps = Vec::new(alloc);
    let mut table = first_round(alloc, loaded, declared, site, code, steps)?;
    'rounds: loop {
        match next_step(alloc, loaded, declared, site, code, jumps, table, steps)? {
            Step::Ends(rounds) => return Ok(rounds),
            Step::GoesOn(further, risen) => {
                jumps = further;
                table = risen;
            }
        }
    }
}

// The table of the first round, in which there are no jumps through registers.
fn first_round<L: Ledger>(
    alloc: Global,
    loaded: &Module,
    declared: &Function,
    site: Site,
    code: &[u8],
    steps: &mut Steps<L>,
) -> Result<Solved<State>, OutOfMemory>
    requires whole { IsWhole loaded.now }
    requires listed { Contains loaded.now.functions declared.now }
    requires short { declared.now.size ≤ 1048576 }
    requires graph { IsGraph (context_of loaded.now declared.now) site code.now (declared.now.size + 1) }
    ensures solved { IfOk result (λ table. IsInRound (context_of loaded.now declared.now) [] table
        steps.old steps.new) }
    ensures ticks { steps.new ≤ steps.old + tick_limit (context_of loaded.now declared.now) }
    ensures counts { steps.old ≤ steps.new }
{
    edges_are_post();
    edges_rise();
    edges_grow_slowly();
    entry_is_state();
    sites_are_in_range(loaded);
    state_ranks_are_small();
    let graph = Graph::of_function(loaded, declared, site, code, declared.size + 1, &[]);
    let start = entry_state(alloc)?;
    solve(alloc, &graph, 0, start, steps)
}

// The table of a round with these jumps through registers, from the one of the round before.
fn next_round<L: Ledger>(
    alloc: Global,
    loaded: &Module,
    declared: &Function,
    site: Site,
    code: &[u8],
    jumps: &[Option<JumpTable>],
    table: Solved<State>,
    waiting: BTreeSet<u32>,
    steps: &mut Steps<L>,
) -> Result<Solved<State>, OutOfMemory>
    requires whole { IsWhole loaded.now }
    requires listed { Contains loaded.now.functions declared.now }
    requires short { declared.now.size ≤ 1048576 }
    requires graph { IsGraph (context_of loaded.now declared.now) site code.now (declared.now.size + 1) }
    requires seed { IsSeedWith (context_of loaded.now declared.now)
        (pairs_of (context_of loaded.now declared.now) jumps.now) table waiting.keys }
    ensures solved { IfOk result (IsSolvedWith (context_of loaded.now declared.now)
        (pairs_of (context_of loaded.now declared.now) jumps.now)) }
    ensures ticks { steps.new ≤ steps.old + tick_limit (context_of loaded.now declared.now) }
    ensures counts { steps.old ≤ steps.new }
{
    edges_rise();
    edges_grow_slowly();
    entry_is_state();
    sites_are_in_range(loaded);
    state_ranks_are_small();
    let graph = Graph::of_function(loaded, declared, site, code, declared.size + 1, jumps);
    resume(alloc, &graph, table, waiting, steps)
}

// The states of a table, which become the function's.
fn table_of(
    alloc: Global,
    declared: &Function,
    table: Solved<State>,
) -> Result<FunctionTable, OutOfMemory>
    requires short { declared.now.size ≤ 1048576 }
    requires size { length table ≡ declared.now.size + 1 }
    ensures { IfOk result (λ states. IsTableOf declared.now.entry table states) }
{
    let states = point_states(alloc, table, declared.size + 1)?;
    Ok(FunctionTable {
        entry: declared.entry,
        states,
    })
}

// What comes of a round whose table's jumps lead further than its own ones.
fn another_step<L: Ledger>(
    alloc: Global,
    loaded: &Module,
    declared: &Function,
    site: Site,
    code: &[u8],
    table: Solved<State>,
    further: Vec<Option<JumpTable>>,
    waiting: BTreeSet<u32>,
    steps: &mut Steps<L>,
) -> Result<Step, OutOfMemory>
    requires whole { IsWhole loaded.now }
    requires listed { Contains loaded.now.functions declared.now }
    requires short { declared.now.size ≤ 1048576 }
    requires graph { IsGraph (context_of loaded.now declared.now) site code.now (declared.now.size + 1) }
    requires leads { (jumps : List (Option JumpTable)) × ((start : ℕ) × LeadsOn
        (context_of loaded.now declared.now) jumps table start steps.old further.items waiting.keys) }
    ensures step { IfOk result (λ step. (jumps : List (Option JumpTable)) (start : ℕ) → LeadsOn
        (context_of loaded.now declared.now) jumps table start steps.old further.items waiting.keys
        → IsStep (context_of loaded.now declared.now) jumps start steps.new step) }
    ensures ticks { (jumps : List (Option JumpTable)) (start : ℕ) → LeadsOn
        (context_of loaded.now declared.now) jumps table start steps.old further.items waiting.keys
        → WithinRounds (context_of loaded.now declared.now) (steps.new - start) }
    ensures counts { steps.old ≤ steps.new }
{
    edges_are_post();
    edges_rise();
    entry_is_state();
    jumps_stay();
    sites_are_in_range(loaded);
    let slots = further.as_slice();
    let risen = next_round(
        alloc, loaded, declared, site, code, slots, table, waiting, steps,
    )?;
    Ok(Step::GoesOn(further, risen))
}

// What comes of a round at whose table no check stops, by its tables of jumps.
fn passed_step<L: Ledger>(
    alloc: Global,
    loaded: &Module,
    declared: &Function,
    site: Site,
    code: &[u8],
    jumps: &[Option<JumpTable>],
    table: Solved<State>,
    further: Vec<Option<JumpTable>>,
    steps: &mut Steps<L>,
) -> Result<Step, OutOfMemory>
    requires whole { IsWhole loaded.now }
    requires listed { Contains loaded.now.functions declared.now }
    requires short { declared.now.size ≤ 1048576 }
    requires graph { IsGraph (context_of loaded.now declared.now) site code.now (declared.now.size + 1) }
    requires in_round { (start : ℕ)
        × IsInRound (context_of loaded.now declared.now) jumps.now table start steps.old }
    requires slots { HasSlots (declared.now.size + 1) further.items }
    requires passes { NoneStops (context_of loaded.now declared.now) table }
    requires are { AreSlots (context_of loaded.now declared.now) table further.items
        (declared.now.size + 1) }
    ensures step { IfOk result (λ step. (start : ℕ)
        → IsInRound (context_of loaded.now declared.now) jumps.now table start steps.old
        → IsStep (context_of loaded.now declared.now) jumps.now start steps.new step) }
    ensures ticks { (start : ℕ)
        → IsInRound (context_of loaded.now declared.now) jumps.now table start steps.old
        → WithinRounds (context_of loaded.now declared.now) (steps.new - start) }
    ensures counts { steps.old ≤ steps.new }
{
    jumps_stay();
    sites_are_in_range(loaded);
    let waiting = new_points(alloc, &site, jumps, further.as_slice())?;
    if waiting.is_empty() {
        let table = table_of(alloc, declared, table)?;
        return Ok(Step::Ends(Rounds::Stable(table)));
    }
    another_step(
        alloc, loaded, declared, site, code, table, further, waiting, steps,
    )
}

// What comes of a round, by its table.
fn next_step<L: Ledger>(
    alloc: Global,
    loaded: &Module,
    declared: &Function,
    site: Site,
    code: &[u8],
    jumps: Vec<Option<JumpTable>>,
    table: Solved<State>,
    steps: &mut Steps<L>,
) -> Result<Step, OutOfMemory>
    requires whole { IsWhole loaded.now }
    requires listed { Contains loaded.now.functions declared.now }
    requires short { declared.now.size ≤ 1048576 }
    requires graph { IsGraph (context_of loaded.now declared.now) site code.now (declared.now.size + 1) }
    requires in_round { (start : ℕ)
        × IsInRound (context_of loaded.now declared.now) jumps.items table start steps.old }
    ensures step { IfOk result (λ step. (start : ℕ)
        → IsInRound (context_of loaded.now declared.now) jumps.items table start steps.old
        → IsStep (context_of loaded.now declared.now) jumps.items start steps.new step) }
    ensures ticks { (start : ℕ)
        → IsInRound (context_of loaded.now declared.now) jumps.items table start steps.old
        → WithinRounds (context_of loaded.now declared.now) (steps.new - start) }
    ensures counts { steps.old ≤ steps.new }
{
    jumps_stay();
    sites_are_in_range(loaded);
    match walk_over(alloc, &site, code, &table)? {
        Walk::Stops { at, check } => {
            let table = table_of(alloc, declared, table)?;
            Ok(Step::Ends(Rounds::Stopped { table, at, check }))
        }
        Walk::Passes(further) => passed_step(
            alloc,
            loaded,
            declared,
            site,
            code,
            jumps.as_slice(),
            table,
            further,
            steps,
        ),
    }
}
