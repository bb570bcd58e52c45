ghost use Rattle.std.specs.Prelude.{◌≡◌, ◌≤◌, ℕ, [], ◌∷◌, ◌++◌, ◌↔◌, length, List, IsTrue, IfSome, IfNone, IfOk, OnOk, OnErr};
ghost use Rattle.vw_stmt.specs.declared.operands.Var.{Var};
ghost use Rattle.std.specs.List.{AllByRecursion};
ghost use Rattle.vw_insn.specs.declared.instruction.Insn.{Insn};
ghost use Rattle.vw_insn.specs.Listed.{IsListed};
ghost use Rattle.vw_stmt.specs.declared.statement.Flow.{Flow};
ghost use Rattle.vw_stmt.specs.declared.statement.Stmt.{Stmt};
ghost use Rattle.vw_lift.specs.Lifted.{lifted, flow_of};
ghost use Rattle.vw_stmt.specs.Lifted.{IsLifted};
ghost use Rattle.vw_domain.specs.Abstract.{Abstract, abstract_of};
ghost use Rattle.vw_domain.specs.declared.parts.Parts.{Parts};
ghost use Rattle.vw_domain.specs.Addresses.{value_of};
ghost use Rattle.vw_domain.specs.Operands.{index_of};
ghost use Rattle.vw_domain.specs.State.{Fits};
ghost use Rattle.vw_state.specs.Checks.{Leaves};
ghost use Rattle.vw_state.specs.Code.{code_at, NothingAt, StandsAlone, IsPointInsn};
ghost use Rattle.vw_state.specs.Context.{Context, IsSite};
ghost use Rattle.vw_state.specs.Post.{relative_point, inside, jump_table, table_targets, form_behind, seconds, edges_with, edges_at, has_no_edge, IsBehind, Post};

use crate::flow_edges::append_flow;
use crate::jumps::{jump_table, stays_inside};
use crate::laws::{code_is_short, edges_are_post};
use crate::registers::known_of;
use crate::statements::{change_all, change_by_stmts};
use crate::{JumpTable, Site};
use std::alloc::Global;
use vw_bits::OutOfMemory;
use vw_decode::decode;
use vw_domain::State;
use vw_insn::Insn;
use vw_lattice::Lattice;
use vw_lift::lift;
use vw_rows::as_bytes;
use vw_solver::Edges;
use vw_stmt::{Flow, Stmt};

/// The instruction that begins at a point of a function's code, with its statements.
#[derive(Clone, Copy)]
pub struct PointInsn<'a> {
    /// The point, in bytes from the function's entry.
    pub at: u32,
    /// How many bytes the instruction has.
    pub len: u32,
    /// The instruction.
    pub insn: &'a Insn,
    /// Its statements, as `lift` gives them.
    pub stmts: &'a [Stmt],
}

/// Appends to `out` the edges that leave a point of a function with a state, each with the state that it carries.
/// Control goes on to the next instruction, also where this is the function's end; from a direct jump to its target,
/// and from a direct branch to its target and then to the next instruction, where what was compared may be so; a target
/// outside the function has no edge. A jump through a register goes to where the entries of the table lead of which the
/// register's value tells, in their order, and has no edge where it tells of none. A call goes on to the next instruction
/// with what it leaves. UD2 and RET have no edge, nor has a point where nothing decodes in the bytes up to the function's
/// end. A site whose bytes are not in the file part of one segment has no code. OutOfMemory where the allocator refuses a
/// request; then `out` is as it was.
pub fn post(
    alloc: Global,
    site: &Site,
    at: u32,
    state: &State,
    out: &mut Edges<State>,
) -> Result<(), OutOfMemory>
    requires few { length site.now.tables.now ≤ 64 }
    ensures edges { (f : Context) → IsSite f site.now
        → OnOk result (out.new ≡ out.old ++ edges_at f at state.now) }
    ensures post { (f : Context) → IsSite f site.now
        → OnOk result (Post f at state.now (edges_at f at state.now)) }
    ensures err { OnErr result (out.new ≡ out.old) }
{
    post_of_code(alloc, site, site.code(), at, state, out)
}

/// The same, where the function's code is at hand.
pub fn post_of_code(
    alloc: Global,
    site: &Site,
    code: &[u8],
    at: u32,
    state: &State,
    out: &mut Edges<State>,
) -> Result<(), OutOfMemory>
    requires code { code.now ≡ code_at site.now.image.now site.now.entry site.now.size }
    requires few { length site.now.tables.now ≤ 64 }
    ensures edges { (f : Context) → IsSite f site.now
        → OnOk result (out.new ≡ out.old ++ edges_at f at state.now) }
    ensures post { (f : Context) → IsSite f site.now
        → OnOk result (Post f at state.now (edges_at f at state.now)) }
    ensures err { OnErr result (out.new ≡ out.old) }
{
    edges_are_post();
    let code = as_bytes(code);
    let Some((insn, len)) = instruction_at(code, at) else {
        return Ok(());
    };
    let stmts = lift(alloc, &insn, 0, 0);
    let point = PointInsn {
        at,
        len,
        insn: &insn,
        stmts: stmts.as_slice(),
    };
    post_of_insn(site, code, &point, state, out)
}

// The same, where the instruction at the point is at hand.
fn post_of_insn(
    site: &Site,
    code: &[u8],
    point: &PointInsn,
    state: &State,
    out: &mut Edges<State>,
) -> Result<(), OutOfMemory>
    requires code { code.now ≡ code_at site.now.image.now site.now.entry site.now.size }
    requires few { length site.now.tables.now ≤ 64 }
    requires point { IsPointInsn code.now point.now }
    ensures edges { (f : Context) → IsSite f site.now
        → OnOk result (out.new ≡ out.old ++ edges_at f point.now.at state.now) }
    ensures err { OnErr result (out.new ≡ out.old) }
{
    code_is_short();
    let _code = code;
    let _size = site.size;
    let mut behind = state.copy()?;
    change_by_stmts(site, point.at + point.len, point.stmts, &mut behind)?;
    post_behind(site, code, point, behind, &mut None, out)
}

/// The same, where the instruction at the point is at hand, and the state behind its statements, which
/// `change_by_stmts` makes of the one before them. The last edge that carries this state takes it over, and the first of
/// two takes a copy in the memory of the spare state, where one is given, which is gone then. Beyond the edges, their
/// other states and what a call may need it takes no memory.
pub fn post_behind(
    site: &Site,
    code: &[u8],
    point: &PointInsn,
    behind: State,
    spare: &mut Option<State>,
    out: &mut Edges<State>,
) -> Result<(), OutOfMemory>
    requires code { code.now ≡ code_at site.now.image.now site.now.entry site.now.size }
    requires point { IsPointInsn code.now point.now }
    ensures edges { (f : Context) (state : Parts) → IsSite f site.now
        → IsBehind f point.now state behind
        → OnOk result (out.new ≡ out.old ++ edges_at f point.now.at state) }
    ensures err { OnErr result (out.new ≡ out.old) }
{
    edges_are_post();
    let _code = as_bytes(code);
    let next = point.at + point.len;
    let flow = last_flow(point.stmts);
    let table = table_told(flow, &behind);
    append_flow(site, next, flow, table, behind, spare, out)
}

/// The same, where a jump through a register at this point goes to where the entries of this table lead, whatever the
/// value of the register tells, and to none where there is no table.
pub fn post_with(
    alloc: Global,
    site: &Site,
    code: &[u8],
    at: u32,
    table: Option<JumpTable>,
    state: &State,
    out: &mut Edges<State>,
) -> Result<(), OutOfMemory>
    requires code { code.now ≡ code_at site.now.image.now site.now.entry site.now.size }
    requires few { length site.now.tables.now ≤ 64 }
    ensures edges { (f : Context) (pairs : List (ℕ × ℕ)) → IsSite f site.now
        → seconds at pairs ≡ table_targets f table
        → OnOk result (out.new ≡ out.old ++ edges_with f pairs at state.now) }
    ensures err { OnErr result (out.new ≡ out.old) }
{
    edges_are_post();
    let code = as_bytes(code);
    let Some((insn, len)) = instruction_at(code, at) else {
        return Ok(());
    };
    let next = at + len;
    let stmts = lift(alloc, &insn, 0, 0);
    let flow = last_flow(stmts.as_slice());
    let mut behind = state.copy()?;
    go_behind(site, next, stmts.as_slice(), &mut behind)?;
    append_flow(site, next, flow, table, behind, &mut None, out)
}

/// Whether the instruction at a point is a return or a trap, from which no edge leaves with any state. Takes no memory.
pub fn has_no_edge(site: &Site, code: &[u8], point: &PointInsn) -> bool
    requires code { code.now ≡ code_at site.now.image.now site.now.entry site.now.size }
    requires point { IsPointInsn code.now point.now }
    ensures flow { result ≡ has_no_edge (flow_of point.now.insn.now) }
    ensures edges { IsTrue result → (f : Context) (state : Parts) → IsSite f site.now
        → edges_at f point.now.at state ≡ [] }
{
    edges_are_post();
    let _site = site;
    let _code = as_bytes(code);
    let flow = last_flow(point.stmts);
    has_flow_no_edge(flow)
}

fn has_flow_no_edge(flow: Flow) -> bool
    ensures { result ≡ has_no_edge flow }
{
    match flow {
        Flow::Ret | Flow::Stop => true,
        Flow::Next
        | Flow::Jump { .. }
        | Flow::Branch { .. }
        | Flow::JumpReg { .. }
        | Flow::Call { .. }
        | Flow::CallReg { .. } => false,
    }
}

// The table of jumps of which the register of a jump tells, with the state behind the other statements.
fn table_told(flow: Flow, behind: &State) -> Option<JumpTable>
    ensures { (src : Var) → flow ≡ Flow.JumpReg src
        → result ≡ jump_table (value_of (abstract_of behind.now) (index_of src)) }
{
    match flow {
        Flow::JumpReg { src } => jump_table(known_of(behind, src).value),
        _ => None,
    }
}

/// The state behind the statements of an instruction with `next` behind it, but for its transfer of control.
/// OutOfMemory where the allocator refuses a request.
pub fn state_behind(
    alloc: Global,
    site: &Site,
    next: u32,
    insn: &Insn,
    state: &State,
) -> Result<State, OutOfMemory>
    requires few { length site.now.tables.now ≤ 64 }
    requires listed { IsListed insn.now }
    ensures form { IfOk result (λ behind. (f : Context) → IsSite f site.now
        → abstract_of behind ≡ form_behind f next insn.now state.now) }
    ensures fits { IfOk result
        (λ behind. Fits site.now.bounds.now state.now → Fits site.now.bounds.now behind) }
{
    let stmts = lift(alloc, insn, 0, 0);
    let mut behind = state.copy()?;
    go_behind(site, next, stmts.as_slice(), &mut behind)?;
    Ok(behind)
}

// Changes a state as the statements of an instruction with `next` behind it do, but for its transfer of control. Nothing
// is promised where memory is refused.
fn go_behind(site: &Site, next: u32, stmts: &[Stmt], state: &mut State) -> Result<(), OutOfMemory>
    requires few { length site.now.tables.now ≤ 64 }
    requires lifted { AllByRecursion IsLifted stmts.now }
    ensures form { (f : Context) (i : Insn) → IsSite f site.now → stmts.now ≡ lifted i
        → OnOk result (abstract_of state.new ≡ form_behind f next i state.old) }
    ensures fits { OnOk result
        (Fits site.now.bounds.now state.old → Fits site.now.bounds.now state.new) }
{
    change_all(site, next, stmts, state)
}

/// The instruction that begins at a point of a function's code, and how many bytes it has. None exactly where
/// none begins there. Takes no memory.
pub fn instruction_at(code: &[u8], at: u32) -> Option<(Insn, u32)>
    ensures found { IfSome result (λ found. StandsAlone code.now at found.0 found.1) }
    ensures listed { IfSome result (λ found. IsListed found.0) }
    ensures none { IfNone result (NothingAt code.now at) }
{
    if code.len() < at as usize {
        return None;
    }
    let (insn, len) = decode(&code[at as usize..])?;
    Some((insn, len as u32))
}

/// How control goes on after an instruction: the last of its statements, which do not depend on where it stands. `insn`
/// is one that an opcode row can give. Takes no memory: `alloc` is kept alone.
pub fn flow_of(alloc: Global, insn: &Insn) -> Flow
    requires { IsListed insn.now }
    ensures { result ≡ flow_of insn.now }
{
    match *insn {
        Insn::JumpInd { .. } | Insn::CallInd { .. } => {
            let stmts = lift(alloc, insn, 0, 0);
            last_flow(stmts.as_slice())
        }
        Insn::Jcc { cond, rel } => Flow::Branch { cond, rel },
        Insn::Jump { rel } => Flow::Jump { rel },
        Insn::Call { rel } => Flow::Call { rel },
        Insn::Ret => Flow::Ret,
        Insn::Ud2 => Flow::Stop,
        _ => Flow::Next,
    }
}

// The last of some statements, where it is a flow.
fn last_flow(stmts: &[Stmt]) -> Flow
    ensures { (before : List Stmt) (flow : Flow) → stmts.now ≡ before ++ Stmt.Flow flow ∷ []
        → result ≡ flow }
{
    match stmts.last() {
        Some(last) => as_flow(*last),
        None => Flow::Stop,
    }
}

fn as_flow(stmt: Stmt) -> Flow
    ensures { (flow : Flow) → stmt ≡ Stmt.Flow flow → result ≡ flow }
{
    match stmt {
        Stmt::Flow(flow) => flow,
        _ => Flow::Stop,
    }
}

/// Where a direct jump or branch goes that has `next` behind it, in a function of `size` bytes: `rel` counts
/// from there. None exactly where that is outside, below 0 or from `size` on. Takes no memory.
pub fn direct_target(size: u32, next: u32, rel: i32) -> Option<u32>
    ensures { result ≡ inside size (relative_point next rel) }
{
    let to = next as i64 + rel as i64;
    if 0 <= to && to < size as i64 {
        Some(to as u32)
    } else {
        None
    }
}

/// Whether a flow with `next` behind it, but for a jump through a register, leaves a function of `size` bytes otherwise
/// than by a return or a call: a direct jump or branch whose target is outside. Takes no memory.
pub fn leaves_directly(size: u32, next: u32, flow: Flow) -> bool
    ensures { (f : Context) (st : Abstract) → f.size ≡ size
        → ((src : Var) → flow ≡ Flow.JumpReg src → ⊥)
        → (IsTrue result ↔ Leaves f next st flow) }
{
    match flow {
        Flow::Jump { rel } => direct_target(size, next, rel).is_none(),
        Flow::Branch { rel, .. } => direct_target(size, next, rel).is_none(),
        Flow::Next
        | Flow::JumpReg { .. }
        | Flow::Call { .. }
        | Flow::CallReg { .. }
        | Flow::Ret
        | Flow::Stop => false,
    }
}

/// Whether a flow with `next` behind it may leave the function otherwise than by a return or a call, with the state
/// behind the other statements: a direct jump or branch whose target is outside, or a jump through a register of whose
/// value it is not known that it stays inside. Takes no memory.
pub fn leaves_function(site: &Site, next: u32, flow: Flow, state: &State) -> bool
    ensures { (f : Context) → IsSite f site.now
        → (IsTrue result ↔ Leaves f next (abstract_of state.now) flow) }
{
    match flow {
        Flow::JumpReg { src } => match jump_table(known_of(state, src).value) {
            Some(table) => !stays_inside(site, table),
            None => true,
        },
        _ => leaves_directly(site.size, next, flow),
    }
}
