//! What a step of the machine makes of an instruction.

use crate::line::{Line, Snapshot};
use std::alloc::{AllocError, Global};
use std::collections::BTreeMap;
use vw_bits::{List, OutOfMemory};
use vw_effect::Flags;
use vw_layout::Module;
use vw_machine::{Choice, Frame, Machine, Outcome, World};

/// Bytes at an offset of a file.
type Run = (usize, &'static [u8]);

/// A module with one function `f`, of sixteen bytes at 120: as an assembler and a linker would lay it out, with one
/// loaded segment, a section of symbols and one of strings (gABI, chapters 4 and 5).
const MODULE: [Run; 19] = [
    (0, b"\x7fELF\x02\x01\x01"),
    (16, b"\x03\0>\0\x01"),
    (32, b"@"),
    (40, b"\xc0"),
    (52, b"@\08\0\x01\0@\0\x03\0\0\0\x01\0\0\0\x05"),
    (96, b"\x88"),
    (104, b"\x88"),
    (113, b"\x10"),
    (160, b"\x01\0\0\0\x12\0\x01\0x"),
    (176, b"\x10"),
    (185, b"f"),
    (260, b"\x02"),
    (280, b"\x88"),
    (288, b"0"),
    (296, b"\x02"),
    (312, b"\x18"),
    (324, b"\x03"),
    (344, b"\xb8"),
    (352, b"\x03"),
];

const CODE: usize = 120;

fn put(bytes: &mut Vec<u8>, offset: usize, run: &[u8]) {
    for (place, byte) in run.iter().enumerate() {
        if let Some(there) = bytes.get_mut(offset.saturating_add(place)) {
            *there = *byte;
        }
    }
}

// The module whose function begins with this code; RET stands behind it.
fn file_of(alloc: Global, code: &[u8]) -> Result<Vec<u8>, AllocError> {
    let mut bytes = Vec::new(alloc);
    bytes.resize(384, 0)?;
    for (offset, run) in MODULE.iter() {
        put(&mut bytes, *offset, run);
    }
    put(&mut bytes, CODE, &[0xC3; 16]);
    put(&mut bytes, CODE, code);
    Ok(bytes)
}

fn bits_of(flags: Flags) -> u8 {
    u8::from(flags.carry)
        | u8::from(flags.parity) << 1
        | u8::from(flags.is_zero) << 2
        | u8::from(flags.sign) << 3
        | u8::from(flags.overflow) << 4
}

// The machine before the line's instruction, which stands where its function begins.
fn machine_before(alloc: Global, world: &World, before: &Snapshot) -> Result<Machine, AllocError> {
    let entry = world.load.wrapping_add(CODE as u64);
    let mut active = Vec::new(alloc);
    active.push(Frame {
        entry,
        rsp0: world.stack_high,
        back: world.host_return,
        written: BTreeMap::new(alloc),
    })?;
    Ok(Machine {
        registers: before.registers,
        rip: entry,
        flags: before.flags,
        bytes: BTreeMap::new(alloc),
        active,
    })
}

fn difference_between(machine: &Machine, state: &Snapshot, next: u64) -> Option<&'static str> {
    if machine.registers != state.registers {
        return Some("registers after a step");
    }
    if machine.flags != state.flags {
        return Some("flags after a step");
    }
    if machine.rip != next {
        return Some("rip after a step");
    }
    None
}

/// What differs first between what a step of the machine makes of the line's instruction, which accesses no memory and
/// goes on to the next one, and the state after it, where these two results are chosen and the flags are those of that
/// state. OutOfMemory where the allocator refuses a request.
pub fn step_difference(
    alloc: Global,
    line: &Line,
    state: &Snapshot,
    results: [u64; 2],
) -> Result<Option<&'static str>, OutOfMemory> {
    let file = file_of(alloc, line.code.as_slice())?;
    let Ok(module) = Module::read(alloc, List::from_vec(file)) else {
        return Ok(Some("module"));
    };
    let world = World::usual(alloc, &module)?;
    let mut machine = machine_before(alloc, &world, &line.before)?;
    let choice = Choice {
        numbers: [results[0], results[1], 0, 0, 0, 0, 0, 0, 0, 0],
        flags: bits_of(state.flags),
        trap: false,
        below: List::new(alloc),
    };
    let next = machine.rip.wrapping_add(line.code.len() as u64);
    match machine.step(alloc, &module, &world, &choice)? {
        Outcome::Went => Ok(difference_between(&machine, state, next)),
        Outcome::Returned | Outcome::Trapped | Outcome::Violation(_) => Ok(Some("step")),
    }
}
