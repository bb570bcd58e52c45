//! What is done with abstract states, one hundred thousand times a round.

ghost use Rattle.std.specs.Prelude.{◌≡◌};

use std::alloc::Global;
use vw_bits::OutOfMemory;
use vw_domain::{Parts, Register, State, entry_state};
use vw_lattice::Lattice;
use vw_stack::Offset;
use vw_values::{Bounds, Value};

// How many states a round makes.
const STATES: u32 = 100_000;

/// What is done with each state.
#[derive(Clone, Copy)]
pub enum Work {
    /// The state at a function's entry is made.
    Make,
    /// It is copied.
    Copy,
    /// A copy is joined with a state that differs in one register.
    Join,
    /// A copy is compared with the state that it is a copy of.
    Compare,
    /// Nothing; its size is told.
    Size,
}

/// The work that a word names. None: it names none.
pub fn work_of(word: &str) -> Option<Work> {
    match word {
        "make" => Some(Work::Make),
        "copy" => Some(Work::Copy),
        "join" => Some(Work::Join),
        "compare" => Some(Work::Compare),
        "size" => Some(Work::Size),
        _ => None,
    }
}

/// Does a round of the work, and answers of how many states something was found: of those that are there, or at a join
/// of those that it changed, or at a comparison of those that are below the other. The size is that of one in bytes,
/// without its slots, its classes and its ranges of written bytes.
pub fn round(alloc: Global, work: Work) -> Result<u64, OutOfMemory> {
    let entry = entry_state(alloc)?;
    match work {
        Work::Make => Ok(made(alloc)?.len() as u64),
        Work::Copy => Ok(copies(alloc, &entry)?.len() as u64),
        Work::Join => joined(alloc, &entry),
        Work::Compare => Ok(compared(copies(alloc, &entry)?.as_slice(), &entry)),
        Work::Size => Ok(size_of::<Parts>() as u64),
    }
}

fn made(alloc: Global) -> Result<Vec<State>, OutOfMemory> {
    let mut states = Vec::new(alloc);
    for _ in 0..STATES {
        states.push(entry_state(alloc)?)?;
    }
    Ok(states)
}

fn copies(alloc: Global, state: &State) -> Result<Vec<State>, OutOfMemory> {
    let mut states = Vec::new(alloc);
    for _ in 0..STATES {
        states.push(state.copy()?)?;
    }
    Ok(states)
}

fn joined(alloc: Global, entry: &State) -> Result<u64, OutOfMemory> {
    let bounds = Bounds::new(alloc, &[])?;
    let mut other = entry.copy()?;
    other.write(0, seven());
    let mut states = copies(alloc, &other)?;
    let mut changed: u64 = 0;
    for state in &mut states {
        changed = changed.wrapping_add(u64::from(state.join(entry, &bounds)?));
    }
    Ok(changed)
}

fn seven() -> Register
    ensures { result ≡ record { offset = Offset.Unknown; value = Value.Const 7 } }
{
    Register {
        offset: Offset::Unknown,
        value: Value::Const(7),
    }
}

fn compared(states: &[State], entry: &State) -> u64 {
    let mut below: u64 = 0;
    for state in states {
        below = below.wrapping_add(u64::from(state.leq(entry)));
    }
    below
}
