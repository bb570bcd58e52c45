//! What the checks of the graph find at one point.

ghost use Rattle.std.specs.Prelude.{◌≡◌, ◌+◌, ◌^◌, ◌<◌, ◌≤◌, length, IfOk};
ghost use Rattle.vw_insn.specs.Listed.{IsListed};
ghost use Rattle.vw_domain.specs.State.{Fits};
ghost use Rattle.vw_state.specs.Context.{Context, IsSite, code_of};
ghost use Rattle.vw_graph.specs.search.Walks.{FindsThrough, FindsBehind, FindsAt};

use crate::walk::Look;
use std::alloc::Global;
use vw_bits::OutOfMemory;
use vw_domain::State;
use vw_insn::Insn;
use vw_state::{
    JumpTable, Site, flow_of, instruction_at, jump_table, known_of, leaves_directly, state_behind,
    stays_inside,
};
use vw_stmt::Flow;

// What is found at a jump through a register, by the table of jumps that its value tells.
fn look_through(site: &Site, table: Option<JumpTable>) -> Look
    ensures { (f : Context) → IsSite f site.now → FindsThrough f table result }
{
    match table {
        Some(jumps) => {
            if stays_inside(site, jumps) {
                Look::Jumps(jumps)
            } else {
                Look::Stops(2)
            }
        }
        None => Look::Stops(2),
    }
}

// What is found at an instruction with `next` behind it.
fn look_behind(
    alloc: Global,
    site: &Site,
    next: u32,
    insn: &Insn,
    state: &State,
) -> Result<Look, OutOfMemory>
    requires few { length site.now.tables.now ≤ 64 }
    requires listed { IsListed insn.now }
    requires fits { Fits site.now.bounds.now state.now }
    ensures { IfOk result (λ look. (f : Context) → IsSite f site.now
        → FindsBehind f next insn.now state.now look) }
{
    let flow = flow_of(alloc, insn);
    match flow {
        Flow::JumpReg { src } => {
            let behind = state_behind(alloc, site, next, insn, state)?;
            Ok(look_through(site, jump_table(known_of(&behind, src).value)))
        }
        _ => {
            if leaves_directly(site.size, next, flow) {
                Ok(Look::Stops(2))
            } else {
                Ok(Look::Passes)
            }
        }
    }
}

/// What is found at a point with a state.
pub(crate) fn look_at(
    alloc: Global,
    site: &Site,
    code: &[u8],
    at: u32,
    state: &State,
) -> Result<Look, OutOfMemory>
    requires few { length site.now.tables.now ≤ 64 }
    requires short { length code.now ≤ site.now.size }
    requires small { site.now.size + 1 < 2 ^ 32 }
    requires fits { Fits site.now.bounds.now state.now }
    ensures { IfOk result (λ look. (f : Context) → IsSite f site.now → code_of f ≡ code.now
        → FindsAt f at state.now look) }
{
    match instruction_at(code, at) {
        Some((insn, len)) => look_behind(alloc, site, at + len, &insn, state),
        None => Ok(Look::Stops(1)),
    }
}
