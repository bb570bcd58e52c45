ghost use Rattle.std.specs.Prelude.{◌≡◌, ◌↔◌, IsTrue, IfOk, OnOk, OnErr};
ghost use Rattle.vw_domain.specs.State.{Fits, IsState, IsValidState, state_below, state_rank, plain_register, entry_state, unknown_state};
ghost use Rattle.vw_domain.specs.StateOrder.{state_reflexive, state_transitive, state_antisymmetric, state_falls, state_strict};

use crate::cells::Cell;
use crate::parts::{Parts, copy, copy_from, do_land, is_below, is_same, join, unknown_parts};
use crate::registers::{Register, is_row_among};
use crate::slots::are_slots_among;
use std::alloc::Global;
use std::marker::Model;
use vw_bits::OutOfMemory;
use vw_lattice::Lattice;
use vw_stack::Offset;
use vw_values::{Bounds, Value};

/// What is known at a point of a function, which contracts see as its parts: of each register its distance from
/// the value of rsp at the function's entry and its value; how deep the stack was probed; which bytes of the frame
/// were written; the values of slots; which places hold equal values; and what the flags tell. A lower state says
/// more. Valid are the states whose values name no bounds but those given.
#[derive(Drop)]
pub struct State {
    pub(crate) parts: Box<Parts>,
}

impl Model for State {
    ghost use Rattle.vw_domain.specs.declared.parts.Parts.{Parts};
    ghost use Rattle.vw_domain.specs.State.{IsState};

    ghost Value = { Parts };

    ghost view = { λ state. state.parts.value };

    ghost invariant = { λ state. IsState state.parts.value };
}

impl State {
    // The state with these parts.
    pub(crate) fn with(alloc: Global, parts: Parts) -> Result<State, OutOfMemory>
        requires { IsState parts }
        ensures { IfOk result (λ state. state ≡ parts) }
    {
        let parts = Box::new(alloc, parts)?;
        Ok(State { parts })
    }

    /// What holds of every state: its parts are in their ranges, and its classes name places that are there.
    pub fn is_state(&self)
        ensures { IsState self.now }
    {
        let _ = &self.parts;
    }

    /// Whether each bound that a value of the state names is among these.
    pub fn fits(&self, bounds: &Bounds) -> bool
        ensures { IsTrue result ↔ Fits bounds.now self.now }
    {
        let parts: &Parts = &self.parts;
        is_row_among(&parts.registers, bounds) && are_slots_among(&parts.slots, bounds)
    }

    /// Whether each bound that a value of the other state names is among these, and the state is below the other one or
    /// equal to it: `fits` and `leq` in one pass over both. Takes no memory.
    pub fn lands_below(&self, other: &State, bounds: &Bounds) -> bool
        ensures { IsTrue result ↔ (Fits bounds.now other.now × state_below self.now other.now) }
    {
        do_land(&self.parts, &other.parts, bounds)
    }

    /// Whether the state is equal to the other one, and each bound that a value of it names is among these. Takes no
    /// memory.
    pub fn is_same(&self, other: &State, bounds: &Bounds) -> bool
        ensures { IsTrue result ↔ ((self.now ≡ other.now) × Fits bounds.now other.now) }
    {
        is_same(&self.parts, &other.parts, bounds)
    }

    /// An equal state, in the memory of a spare one where this is given. OutOfMemory where the allocator refuses a request.
    pub fn copy_in(&self, spare: Option<State>) -> Result<State, OutOfMemory>
        ensures { IfOk result (λ copy. copy ≡ self.now) }
    {
        match spare {
            Some(mut copy) => {
                copy.copy_from(self)?;
                Ok(copy)
            }
            None => self.copy(),
        }
    }

    /// Makes the state equal to another one, in the memory that it has where this is enough. Where memory is refused,
    /// nothing is known in it.
    pub fn copy_from(&mut self, other: &State) -> Result<(), OutOfMemory>
        ensures ok { OnOk result (self.new ≡ other.now) }
        ensures err { OnErr result (self.new ≡ unknown_state) }
    {
        let alloc = *Box::allocator(&self.parts);
        match copy_from(&mut self.parts, &other.parts) {
            Ok(()) => Ok(()),
            Err(error) => {
                *self.parts = unknown_parts(alloc);
                Err(error)
            }
        }
    }
}

impl Lattice for State {
    type Bounds = Bounds;

    ghost valid = { IsValidState };

    ghost well_formed = { IsState };

    ghost below = { state_below };

    ghost rank = { state_rank };

    fn leq(&self, other: &Self) -> bool {
        is_below(&self.parts, &other.parts)
    }

    fn join(&mut self, other: &Self, bounds: &Bounds) -> Result<bool, OutOfMemory> {
        bounds.are_bounds();
        let alloc = *Box::allocator(&self.parts);
        match join(&mut self.parts, &other.parts, bounds) {
            Ok(changed) => Ok(changed),
            Err(error) => {
                *self.parts = unknown_parts(alloc);
                Err(error)
            }
        }
    }

    fn copy(&self) -> Result<Self, OutOfMemory> {
        let alloc = *Box::allocator(&self.parts);
        State::with(alloc, copy(&self.parts)?)
    }

    ghost reflexive = { state_reflexive };

    ghost transitive = { state_transitive };

    ghost antisymmetric = { state_antisymmetric };

    ghost rank_falls = { state_falls };

    ghost rank_strict = { state_strict };
}

// A register with this value, at no known distance.
fn plain_register(value: Value) -> Cell
    ensures { result ≡ plain_register value }
{
    Cell::of(Register {
        offset: Offset::Unknown,
        value,
    })
}

/// The state at a function's entry: rsp is at offset 0, rdi holds the heap's base, rbx, rbp and r12 to r15 hold what
/// the caller left in them, the other registers of the
/// processor hold numbers, and nothing else is known.
pub fn entry_state(alloc: Global) -> Result<State, OutOfMemory>
    ensures { IfOk result (λ state. state ≡ entry_state) }
{
    let mut parts = unknown_parts(alloc);
    let number = plain_register(Value::Num);
    let registers = [
        number,
        number,
        number,
        plain_register(Value::Entry(3)),
        Cell::of(Register {
            offset: Offset::Known(0),
            value: Value::Any,
        }),
        plain_register(Value::Entry(5)),
        number,
        plain_register(Value::HeapBase),
        number,
        number,
        number,
        number,
        plain_register(Value::Entry(12)),
        plain_register(Value::Entry(13)),
        plain_register(Value::Entry(14)),
        plain_register(Value::Entry(15)),
        plain_register(Value::Any),
    ];
    parts.registers = registers;
    State::with(alloc, parts)
}
