//! The edges of a flow, each with the state that it carries.

ghost use Rattle.std.specs.Prelude.{◌≡◌, ℕ, List, ◌∷◌, [], ◌++◌, map, take, length, Option, Some, IfSome, OnOk, OnErr};
ghost use Rattle.vw_insn.specs.declared.registers.Width.{Width};
ghost use Rattle.vw_stmt.specs.declared.operands.Var.{Var};
ghost use Rattle.vw_stmt.specs.declared.statement.Flow.{Flow};
ghost use Rattle.vw_domain.specs.Abstract.{Abstract, abstract_of};
ghost use Rattle.vw_domain.specs.Branches.{Rule};
ghost use Rattle.vw_domain.specs.Calls.{after_call};
ghost use Rattle.vw_domain.specs.Refines.{IsComparison};
ghost use Rattle.vw_domain.specs.StateOf.{state_of};
ghost use Rattle.vw_domain.specs.Statements.{finish};
ghost use Rattle.vw_state.specs.Context.{Context, IsSite};
ghost use Rattle.vw_state.specs.Edges.{Tells};
ghost use Rattle.vw_state.specs.Post.{entry_target, with_target, table_targets, edge_to, carry, branch_edge, after_direct, flow_forms, with_state};

use crate::branch_rules::told_at;
use crate::edges::direct_target;
use crate::jumps::entry_target;
use crate::probe_calls::calls_probe;
use crate::{JumpTable, Site};
use vw_bits::OutOfMemory;
use vw_domain::{
    Comparison, State, edges_are_decided, forms_tell_states, frame_holds_places, states_have_forms,
};
use vw_insn::Cond;
use vw_lattice::Lattice;
use vw_solver::Edges;
use vw_stmt::Flow;

// Appends an edge to a point. The state that it carries is the one of its form.
fn append(to: u32, state: State, out: &mut Edges<State>) -> Result<(), OutOfMemory>
    ensures ok { (form : Abstract) → abstract_of state ≡ form
        → OnOk result (out.new ≡ out.old ++ (to, state_of form) ∷ []) }
    ensures err { OnErr result (out.new ≡ out.old) }
{
    states_have_forms();
    forms_tell_states();
    state.is_state();
    out.push((to, state))
}

// Appends the edge to a point behind the end of an instruction, where there is one.
fn append_behind(
    to: Option<u32>,
    mut state: State,
    out: &mut Edges<State>,
) -> Result<(), OutOfMemory>
    ensures ok { OnOk result
        (out.new ≡ out.old ++ map with_state (edge_to to (finish (abstract_of state)))) }
    ensures err { OnErr result (out.new ≡ out.old) }
{
    match to {
        Some(point) => {
            state.finish();
            append(point, state, out)
        }
        None => Ok(()),
    }
}

// Appends the edge behind a call of a function.
fn append_after_call(next: u32, mut state: State, out: &mut Edges<State>) -> Result<(), OutOfMemory>
    ensures ok { OnOk result
        (out.new ≡ out.old ++ (next, state_of (after_call (abstract_of state))) ∷ []) }
    ensures err { OnErr result (out.new ≡ out.old) }
{
    state.call()?;
    append(next, state, out)
}

// Appends the edge behind a direct call, of a function or of the probe of the stack.
fn append_after_direct(
    site: &Site,
    next: u32,
    rel: i32,
    mut state: State,
    out: &mut Edges<State>,
) -> Result<(), OutOfMemory>
    ensures ok { (f : Context) → IsSite f site.now → OnOk result
        (out.new ≡ out.old ++ (next, state_of (after_direct f next rel (abstract_of state))) ∷ []) }
    ensures err { OnErr result (out.new ≡ out.old) }
{
    if calls_probe(site.image, site.entry, next, rel) {
        state.call_probe()?;
        append(next, state, out)
    } else {
        append_after_call(next, state, out)
    }
}

// Appends an edge of a branch, where there is a target and control may go along it.
fn append_edge(
    site: &Site,
    told: Option<Comparison>,
    to: Option<u32>,
    mut state: State,
    out: &mut Edges<State>,
) -> Result<(), OutOfMemory>
    requires told { IfSome told IsComparison }
    ensures ok { (f : Context) (next : ℕ) (rule : Option (Width × Rule)) → IsSite f site.now → Tells told rule
        → OnOk result (out.new ≡ out.old ++ map with_state (branch_edge f next (abstract_of state) rule to)) }
    ensures err { OnErr result (out.new ≡ out.old) }
{
    edges_are_decided();
    frame_holds_places();
    states_have_forms();
    state.is_state();
    site.bounds.are_bounds();
    match to {
        None => Ok(()),
        Some(point) => match told {
            None => append(point, state, out),
            Some(comparison) => {
                if state.take_edge(comparison, site.bounds) {
                    append(point, state, out)
                } else {
                    Ok(())
                }
            }
        },
    }
}

// Appends the edges of a branch: the taken one first. The last edge takes the state itself, the other one a copy, in the
// memory of the spare state where there is one.
fn append_branch(
    site: &Site,
    next: u32,
    cond: Cond,
    rel: i32,
    mut state: State,
    spare: &mut Option<State>,
    out: &mut Edges<State>,
) -> Result<(), OutOfMemory>
    ensures ok { (f : Context) (targets : Var → Abstract → List ℕ) → IsSite f site.now → OnOk result
        (out.new ≡ out.old ++ map with_state
        (flow_forms f targets next (abstract_of state) (Flow.Branch cond rel))) }
    ensures err { OnErr result (out.new ≡ out.old) }
{
    state.finish();
    state.is_state();
    let fact = state.fact();
    let to = direct_target(site.size, next, rel);
    let before = out.as_slice().len();
    let first = state.copy_in(spare.take())?;
    append_edge(site, told_at(cond, true, fact), to, first, out)?;
    let told = told_at(cond, false, fact);
    let second = append_edge(site, told, Some(next), state, out);
    match second {
        Ok(()) => Ok(()),
        Err(error) => {
            out.truncate(before);
            Err(error)
        }
    }
}

// Appends the edge to the point to which entry `i` of a table leads, where it leads to one, with a copy of the state.
fn append_entry(
    site: &Site,
    table: JumpTable,
    i: u64,
    state: &State,
    out: &mut Edges<State>,
) -> Result<(), OutOfMemory>
    ensures ok { (f : Context) → IsSite f site.now → OnOk result (out.new
        ≡ out.old ++ map with_state (carry (with_target (entry_target f table i) []) (abstract_of state.now))) }
    ensures err { OnErr result (out.new ≡ out.old) }
{
    match entry_target(site, table, i) {
        Some(point) => append(point, state.copy()?, out),
        None => Ok(()),
    }
}

// Appends the edges to the points to which the entries of a table lead, in their order. Where memory is refused, some of
// them are appended.
fn append_entries(
    site: &Site,
    table: JumpTable,
    state: &State,
    out: &mut Edges<State>,
) -> Result<(), OutOfMemory>
    ensures ok { (f : Context) → IsSite f site.now → OnOk result (out.new
        ≡ out.old ++ map with_state (carry (table_targets f (Some table)) (abstract_of state.now))) }
    ensures err { OnErr result (take (length out.old) out.new ≡ out.old) }
{
    for i in 0..table.count {
        append_entry(site, table, i, state, out)?;
    }
    Ok(())
}

// Appends the edges of a jump through a register, to the points to which the entries of the table lead.
fn append_jumps(
    site: &Site,
    table: Option<JumpTable>,
    mut state: State,
    out: &mut Edges<State>,
) -> Result<(), OutOfMemory>
    ensures ok { (f : Context) → IsSite f site.now → OnOk result (out.new
        ≡ out.old ++ map with_state (carry (table_targets f table) (finish (abstract_of state)))) }
    ensures err { OnErr result (out.new ≡ out.old) }
{
    let Some(table) = table else {
        return Ok(());
    };
    state.finish();
    let before = out.as_slice().len();
    match append_entries(site, table, &state, out) {
        Ok(()) => Ok(()),
        Err(error) => {
            out.truncate(before);
            Err(error)
        }
    }
}

// Appends the edges of a flow with `next` behind it, with the state after the statements before it. A jump through a
// register goes to where the entries of the table lead. A branch may take the memory of the spare state.
pub fn append_flow(
    site: &Site,
    next: u32,
    flow: Flow,
    table: Option<JumpTable>,
    state: State,
    spare: &mut Option<State>,
    out: &mut Edges<State>,
) -> Result<(), OutOfMemory>
    ensures ok { (f : Context) (targets : Var → Abstract → List ℕ) → IsSite f site.now
        → ((src : Var) → flow ≡ Flow.JumpReg src → targets src (abstract_of state) ≡ table_targets f table)
        → OnOk result (out.new ≡ out.old ++ map with_state
        (flow_forms f targets next (abstract_of state) flow)) }
    ensures err { OnErr result (out.new ≡ out.old) }
{
    match flow {
        Flow::Next => append_behind(Some(next), state, out),
        Flow::Jump { rel } => append_behind(direct_target(site.size, next, rel), state, out),
        Flow::Branch { cond, rel } => append_branch(site, next, cond, rel, state, spare, out),
        Flow::Call { rel } => append_after_direct(site, next, rel, state, out),
        Flow::CallReg { .. } => append_after_call(next, state, out),
        Flow::JumpReg { .. } => append_jumps(site, table, state, out),
        Flow::Ret | Flow::Stop => Ok(()),
    }
}
