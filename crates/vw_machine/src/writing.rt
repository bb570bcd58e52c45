//! What a step writes to the stack, and marks.

ghost use Rattle.std.specs.Prelude.{◌≡◌, ◌+◌, ◌-◌, min, max, length, OnOk, OnErr};
ghost use Rattle.vw_lift.specs.Simulation.{stored};
ghost use Rattle.vw_effect.specs.Meaning.{write_of, writes_of};
ghost use Rattle.vw_machine.specs.State.{store, mark, after_writes};
ghost use Rattle.vw_machine.specs.Step.{host_bytes};
ghost use Rattle.vw_machine.specs.Kept.{byte_in, activation_of};

use crate::marks::{self, set_marks};
use crate::memory::{make_room, put_below, put_number};
use crate::{Frame, World};
use std::collections::BTreeMap;
use vw_bits::OutOfMemory;
use vw_effect::Write;

// The first of the addresses from `at` on that lies in the stack or above it.
fn first_in(world: &World, at: u64) -> u64
    ensures { result ≡ max at world.now.stack_low }
{
    at.max(world.stack_low)
}

// The end of what `size` bytes from an address have in the stack or below it.
fn end_in(world: &World, at: u64, size: u32) -> u64
    ensures { result ≡ min (at + size) world.now.stack_high }
{
    at.saturating_add(size as u64).min(world.stack_high)
}

// Writes a number, as far as it lies in the stack, and marks what of it lies in the frame. Where memory is refused, no
// byte and no mark changes.
fn write_number(
    bytes: &mut BTreeMap<u64, u8>,
    top: &mut Frame,
    world: &World,
    write: Write,
) -> Result<(), OutOfMemory>
    ensures bytes { OnOk result (byte_in bytes.new
        ≡ store world.now (byte_in bytes.old) write.at write.size write.value) }
    ensures marks { OnOk result (activation_of top.new
        ≡ mark world.now (activation_of top.old) write.at write.size) }
    ensures same_bytes { OnErr result (byte_in bytes.new ≡ byte_in bytes.old) }
    ensures same_marks { OnErr result (activation_of top.new ≡ activation_of top.old) }
{
    let from = first_in(world, write.at);
    let to = end_in(world, write.at, write.size);
    let end = to.min(top.rsp0);
    make_room(bytes, from, to)?;
    marks::make_room(&mut top.written, from, end)?;
    put_number(bytes, from, to, write.at, write.value);
    set_marks(&mut top.written, from, end);
    Ok(())
}

// Does what an instruction writes. Where memory is refused, nothing changes.
pub(crate) fn settle(
    bytes: &mut BTreeMap<u64, u8>,
    top: &mut Frame,
    world: &World,
    write: Option<Write>,
) -> Result<(), OutOfMemory>
    ensures bytes { OnOk result (byte_in bytes.new
        ≡ stored (store world.now) (byte_in bytes.old) (writes_of write)) }
    ensures marks { OnOk result (activation_of top.new
        ≡ after_writes world.now (activation_of top.old) (writes_of write)) }
    ensures same_bytes { OnErr result (byte_in bytes.new ≡ byte_in bytes.old) }
    ensures same_marks { OnErr result (activation_of top.new ≡ activation_of top.old) }
{
    match write {
        Some(write) => write_number(bytes, top, world, write),
        None => Ok(()),
    }
}

// Leaves the bytes of a list below rsp, downwards from rsp - 1, as far as they lie in the stack. Where memory is
// refused, no byte changes.
pub(crate) fn leave_below(
    bytes: &mut BTreeMap<u64, u8>,
    world: &World,
    rsp: u64,
    below: &[u8],
) -> Result<(), OutOfMemory>
    ensures ok { OnOk result (byte_in bytes.new
        ≡ host_bytes world.now (byte_in bytes.old) rsp below.now) }
    ensures err { OnErr result (byte_in bytes.new ≡ byte_in bytes.old) }
{
    let from = first_in(world, rsp.saturating_sub(below.len() as u64));
    let to = rsp.min(world.stack_high);
    make_room(bytes, from, to)?;
    put_below(bytes, from, to, rsp, below);
    Ok(())
}
