//! Entering a function.

ghost use Rattle.std.specs.Prelude.{ℕ, ◌+◌, ◌^◌, ◌<◌, ◌≡◌, length, slice_get, Some, IfOk};
ghost use Rattle.vw_effect.specs.Meaning.{registers_of};
ghost use Rattle.vw_layout.specs.declared.functions.Function.{Function};
ghost use Rattle.vw_layout.specs.Layout.{IsWhole};
ghost use Rattle.vw_machine.specs.Kept.{byte_in, state_of};
ghost use Rattle.vw_machine.specs.Entered.{HoldsAlone, IsAlone, IsCleared};
ghost use Rattle.vw_machine.specs.Answers.{IsPlaced, IsEntryRsp};

use crate::memory::{make_room, put_number};
use crate::standing::entry_of;
use crate::{Frame, Machine, World};
use std::alloc::Global;
use std::collections::BTreeMap;
use vw_bits::OutOfMemory;
use vw_effect::Flags;
use vw_layout::Module;

/// No flag is set.
const CLEAR: Flags = Flags {
    carry: false,
    parity: false,
    is_zero: false,
    sign: false,
    overflow: false,
};

// The bytes of the stack that hold the return address alone.
fn stack_with(alloc: Global, rsp: u64, back: u64) -> Result<BTreeMap<u64, u8>, OutOfMemory>
    requires { rsp + 8 < 2 ^ 64 }
    ensures { IfOk result (λ bytes. HoldsAlone rsp back (byte_in bytes)) }
{
    let mut bytes = BTreeMap::new(alloc);
    make_room(&mut bytes, rsp, rsp + 8)?;
    put_number(&mut bytes, rsp, rsp + 8, rsp, back as u128);
    Ok(bytes)
}

// The registers that hold rsp and rdi alone.
fn registers_with(rsp: u64, rdi: u64) -> [u64; 16]
    ensures { IsAlone rsp rdi (registers_of result) }
{
    [0, 0, 0, 0, rsp, 0, 0, rdi, 0, 0, 0, 0, 0, 0, 0, 0]
}

impl Machine {
    /// The machine as the host enters the declared function with a number, with this rsp: rip is its entry, rdi the
    /// heap's base, and the host's return address is on top of the stack. All that is free is 0. OutOfMemory where the
    /// allocator refuses a request.
    pub fn enter(
        alloc: Global,
        module: &Module,
        world: &World,
        function: u32,
        rsp: u64,
    ) -> Result<Machine, OutOfMemory>
        requires whole { IsWhole «module».now }
        requires placed { IsPlaced «module».now world.now }
        requires room { IsEntryRsp world.now rsp }
        requires declared { function < length «module».now.functions }
        ensures { IfOk result (λ machine. (f : Function) → slice_get «module».now.functions function ≡ Some f → IsCleared world.now f rsp (state_of machine)) }
    {
        let entry = entry_of(module, world, function);
        let registers = registers_with(rsp, world.heap);
        let bytes = stack_with(alloc, rsp, world.host_return)?;
        let mut active = Vec::new(alloc);
        active.push(Frame {
            entry,
            rsp0: rsp,
            back: world.host_return,
            written: BTreeMap::new(alloc),
        })?;
        Ok(Machine {
            registers,
            rip: entry,
            flags: CLEAR,
            bytes,
            active,
        })
    }
}
