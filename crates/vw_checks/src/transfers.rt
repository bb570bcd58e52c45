ghost use Rattle.std.specs.Prelude.{◌≡◌, ◌↔◌, ◌<◌, ◌+◌, ◌+ℤ◌, pos, ℕ, ℤ, IsTrue};
ghost use Rattle.vw_layout.specs.Layout.{IsWhole};
ghost use Rattle.vw_domain.specs.Abstract.{abstract_of};
ghost use Rattle.vw_domain.specs.Checks.{HasHeapBase, IsTableFn, MayReturn};
ghost use Rattle.vw_names.specs.declared.spot.Spot.{Spot};
ghost use Rattle.vw_stack.specs.declared.offset.Offset.{Offset as OffsetOf};
ghost use Rattle.vw_values.specs.declared.value.Value.{Value as ValueOf};
ghost use Rattle.vw_state.specs.Context.{Context, IsSite};
ghost use Rattle.vw_state.specs.Post.{address_in};
ghost use Rattle.vw_checks.specs.Checks.{IsLowestOf, called_target, MayEnter, MayEnterBy, TransferFails, FlowFails};
ghost use Rattle.vw_checks.specs.Functions.{IsFunctionOf};

use crate::accesses::failing_push;
use crate::lowest::{lower, number_unless, number_where};
use vw_domain::State;
use vw_layout::{CallTarget, Module};
use vw_stack::Offset;
use vw_state::{Site, known_of, leaves_function};
use vw_stmt::{Flow, Var};
use vw_values::Value;

// The address that is a word.
fn address_in(to: i128) -> Option<u64>
    ensures { result ≡ address_in to }
{
    if 0 <= to && to < 1 << 64 {
        Some(to as u64)
    } else {
        None
    }
}

// What a direct call enters.
fn called_target(loaded: &Module, entry: u64, next: u32, rel: i32) -> Option<CallTarget>
    requires { IsWhole loaded.now }
    ensures { (f : Context) → IsFunctionOf loaded.now f → f.entry ≡ entry
        → result ≡ called_target f next rel }
{
    let address = address_in(entry as i128 + next as i128 + rel as i128)?;
    loaded.call_target(address)
}

// Whether rdi holds the heap's base.
fn has_heap_base(state: &State) -> bool
    ensures { IsTrue result ↔ HasHeapBase (abstract_of state.now) }
{
    matches!(state.register(7).value, Value::HeapBase)
}

// Whether a call may enter this.
fn may_enter(target: Option<CallTarget>, state: &State) -> bool
    ensures { IsTrue result ↔ MayEnter target (abstract_of state.now) }
{
    match target {
        None => false,
        Some(CallTarget::Probe) => true,
        Some(CallTarget::Function(_)) | Some(CallTarget::Stub(_)) => has_heap_base(state),
    }
}

// Whether a value is the function of an entry of a table, whose tag is known.
fn is_table_function(value: Value) -> bool
    ensures { IsTrue result ↔ IsTableFn value }
{
    matches!(value, Value::TableFn { .. })
}

// Whether a call through a register may be made.
fn may_enter_by(src: Var, state: &State) -> bool
    ensures { IsTrue result ↔ MayEnterBy src (abstract_of state.now) }
{
    is_table_function(known_of(state, src).value) && has_heap_base(state)
}

// Whether a value is what this register held when the function was entered.
fn is_entry_of(value: Value, register: u8) -> bool
    ensures { IsTrue result ↔ (value ≡ ValueOf.Entry register) }
{
    match value {
        Value::Entry(held) => held == register,
        _ => false,
    }
}

// Whether a register holds what it held when the function was entered.
fn is_saved(state: &State, register: u8) -> bool
    requires { register < 17 }
    ensures { IsTrue result ↔ ((abstract_of state.now).values (Spot.Reg register) ≡ ValueOf.Entry register) }
{
    is_entry_of(state.register(register).value, register)
}

// Whether rsp is where it was when the function was entered.
fn is_back(state: &State) -> bool
    ensures { IsTrue result ↔ ((abstract_of state.now).offsets 4 ≡ OffsetOf.Known (pos 0)) }
{
    match state.register(4).offset {
        Offset::Known(c) => c == 0,
        Offset::Unknown => false,
    }
}

// Whether a return finds rsp and the registers that the caller keeps as they were.
fn may_return(state: &State) -> bool
    ensures { IsTrue result ↔ MayReturn (abstract_of state.now) }
{
    is_back(state)
        && is_saved(state, 3)
        && is_saved(state, 5)
        && is_saved(state, 12)
        && is_saved(state, 13)
        && is_saved(state, 14)
        && is_saved(state, 15)
}

// The lowest number of the checks that fail at a flow but for jumps, with `next` behind it.
fn failing_transfer(
    loaded: &Module,
    site: &Site,
    next: u32,
    flow: Flow,
    state: &State,
) -> Option<u8>
    requires { IsWhole loaded.now }
    ensures { (f : Context) → IsFunctionOf loaded.now f → IsSite f site.now
        → IsLowestOf (TransferFails f next (abstract_of state.now) flow) result }
{
    match flow {
        Flow::Call { rel } => lower(
            failing_push(state),
            number_unless(
                may_enter(called_target(loaded, site.entry, next, rel), state),
                7,
            ),
        ),
        Flow::CallReg { src } => lower(
            failing_push(state),
            number_unless(may_enter_by(src, state), 7),
        ),
        Flow::Ret => number_unless(may_return(state), 8),
        Flow::Next | Flow::Jump { .. } | Flow::Branch { .. } | Flow::JumpReg { .. } | Flow::Stop =>
            None,
    }
}

/// The lowest number of the checks that fail at a flow with `next` behind it.
pub(crate) fn failing_flow(
    loaded: &Module,
    site: &Site,
    next: u32,
    flow: Flow,
    state: &State,
) -> Option<u8>
    requires { IsWhole loaded.now }
    ensures { (f : Context) → IsFunctionOf loaded.now f → IsSite f site.now
        → IsLowestOf (FlowFails f next (abstract_of state.now) flow) result }
{
    lower(
        number_where(leaves_function(site, next, flow, state), 2),
        failing_transfer(loaded, site, next, flow, state),
    )
}
