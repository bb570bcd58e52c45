//! What a step reads, writes and goes to.

ghost use Rattle.std.specs.Prelude.{◌≡◌, ◌+◌, ◌^◌, ◌<◌, ◌≤◌, ◌++◌, [], ◌∷◌, ◌&&◌, ◌||◌, if◌then◌else◌};
ghost use Rattle.std.specs.List.{list_any, AllByRecursion};
ghost use Rattle.vw_insn.specs.Listed.{IsListed};
ghost use Rattle.vw_insn.specs.Effect.{may_trap};
ghost use Rattle.vw_lift.specs.Simulation.{first_loaded};
ghost use Rattle.vw_stmt.specs.Accesses.{places_of};
ghost use Rattle.vw_effect.specs.Meaning.{registers_of, reads_of, writes_of, transfer_of};
ghost use Rattle.vw_layout.specs.Layout.{IsWhole};
ghost use Rattle.vw_machine.specs.declared.event.Event.TheVariants.{Read, Goto};
ghost use Rattle.vw_machine.specs.Module.{view_of};
ghost use Rattle.vw_machine.specs.Standing.{StandsAt, Code};
ghost use Rattle.vw_machine.specs.Step.{loads, slot_address, probe_traps};
ghost use Rattle.vw_machine.specs.Events.{transfer_events, events};
ghost use Rattle.vw_machine.specs.Kept.{state_of};
ghost use Rattle.vw_machine.specs.Found.{here_of, IsKnown, IsWork, is_trap, goto_events, back_of, outer_events, work_events, deed_events};
ghost use Rattle.vw_machine.specs.Answers.{IsPlaced};

use crate::choosing::open_of;
use crate::judging::{GUARD, RESERVATION};
use crate::loading::loaded;
use crate::ranges::touches;
use crate::standing::{Outer, Thing};
use crate::{Choice, Machine, World};
use vw_bits::sum;
use vw_effect::{Access, After, Reads, Transfer, Write, effect, may_trap, reads, reads_are_short};
use vw_image::segments_are_bounded;
use vw_insn::Insn;
use vw_layout::{Module, functions_are_code};

// What a step reads, writes and goes to, in this order.
#[derive(Clone, Copy)]
pub(crate) struct Deeds {
    pub reads: Reads,
    pub write: Option<Write>,
    pub goto: Option<u64>,
}

// What an instruction reads, and what it leaves, before anything is judged. `next` is the address of the next one.
#[derive(Clone, Copy)]
pub(crate) struct Work {
    pub next: u64,
    pub reads: Reads,
    pub after: After,
    pub traps: bool,
}

// The number that a read gives, which is of no account where the read is longer than a word.
fn number_read(
    machine: &Machine,
    module: &Module,
    world: &World,
    choice: &Choice,
    read: Access,
) -> u64
    requires { IsPlaced «module».now world.now }
    ensures { read.size ≤ 8 → result
        ≡ loads (view_of «module».now) world.now choice.now
        (state_of machine.now).bytes read.at read.size }
{
    if read.size <= 8 {
        loaded(machine, module, world, choice, read.at, read.size)
    } else {
        0
    }
}

// The number that the first read gives.
fn first_number(
    machine: &Machine,
    module: &Module,
    world: &World,
    choice: &Choice,
    reads: Reads,
) -> u64
    requires { IsPlaced «module».now world.now }
    ensures { AllByRecursion (λ a. a.size ≤ 8) (reads_of reads) → result
        ≡ first_loaded (loads (view_of «module».now) world.now choice.now)
        (state_of machine.now).bytes (reads_of reads) }
{
    match reads {
        Reads::Nothing => 0,
        Reads::One(read) => number_read(machine, module, world, choice, read),
        Reads::Two(read, _) => number_read(machine, module, world, choice, read),
    }
}

// Whether an access touches the guard, or under the choice the heap.
fn access_traps(world: &World, choice: &Choice, at: u64, size: u32) -> bool
    requires room { 8192 ≤ world.now.stack_low }
    requires heap { world.now.heap + 2 ^ 33 < 2 ^ 64 }
    ensures { result ≡ is_trap world.now choice.now (record { at = at; size = size }) }
{
    touches(at, size, world.stack_low - GUARD, world.stack_low)
        || (choice.trap && touches(at, size, world.heap, world.heap + RESERVATION))
}

fn reads_trap(world: &World, choice: &Choice, reads: Reads) -> bool
    requires room { 8192 ≤ world.now.stack_low }
    requires heap { world.now.heap + 2 ^ 33 < 2 ^ 64 }
    ensures { result ≡ list_any (is_trap world.now choice.now) (reads_of reads) }
{
    match reads {
        Reads::Nothing => false,
        Reads::One(a) => access_traps(world, choice, a.at, a.size),
        Reads::Two(a, b) => {
            access_traps(world, choice, a.at, a.size) || access_traps(world, choice, b.at, b.size)
        }
    }
}

fn write_traps(world: &World, choice: &Choice, write: Option<Write>) -> bool
    requires room { 8192 ≤ world.now.stack_low }
    requires heap { world.now.heap + 2 ^ 33 < 2 ^ 64 }
    ensures { result ≡ list_any (is_trap world.now choice.now) (places_of (writes_of write)) }
{
    match write {
        Some(v) => access_traps(world, choice, v.at, v.size),
        None => false,
    }
}

// Whether an instruction with these accesses traps.
fn traps(world: &World, choice: &Choice, insn: &Insn, reads: Reads, write: Option<Write>) -> bool
    requires room { 8192 ≤ world.now.stack_low }
    requires heap { world.now.heap + 2 ^ 33 < 2 ^ 64 }
    ensures { result ≡ (((choice.now.trap && may_trap insn.now)
        || list_any (is_trap world.now choice.now) (reads_of reads))
        || list_any (is_trap world.now choice.now) (places_of (writes_of write))) }
{
    (choice.trap && may_trap(insn))
        || reads_trap(world, choice, reads)
        || write_traps(world, choice, write)
}

// The address of the instruction after the one at rip.
fn next_address(machine: &Machine, module: &Module, world: &World, insn: &Insn, len: u32) -> u64
    requires whole { IsWhole «module».now }
    requires placed { IsPlaced «module».now world.now }
    requires stands { StandsAt (view_of «module».now) world.now machine.now.rip
        (state_of machine.now).active (Code insn.now len) }
    ensures { result ≡ machine.now.rip + len }
{
    functions_are_code();
    segments_are_bounded();
    let _ = module.image.segments();
    machine.rip + len as u64
}

// What an instruction does.
pub(crate) fn work_of(
    machine: &Machine,
    module: &Module,
    world: &World,
    choice: &Choice,
    insn: &Insn,
    len: u32,
) -> Work
    requires whole { IsWhole «module».now }
    requires placed { IsPlaced «module».now world.now }
    requires listed { IsListed insn.now }
    requires stands { StandsAt (view_of «module».now) world.now machine.now.rip
        (state_of machine.now).active (Code insn.now len) }
    ensures { IsWork (view_of «module».now) world.now
        (state_of machine.now) insn.now len choice.now result }
{
    reads_are_short();
    let next = next_address(machine, module, world, insn, len);
    let read = reads(insn, next, &machine.registers);
    let number = first_number(machine, module, world, choice, read);
    let open = open_of(choice);
    let after = effect(insn, next, &machine.registers, machine.flags, number, &open);
    Work {
        next,
        reads: read,
        after,
        traps: traps(world, choice, insn, read, after.write),
    }
}

// Where an instruction goes, where it does not trap.
pub(crate) fn goto_of(work: &Work) -> Option<u64>
    ensures { goto_events result
        ≡ (if work.now.traps then [] else transfer_events work.now.next
        (transfer_of work.now.after.transfer)) }
{
    if work.traps {
        return None;
    }
    match work.after.transfer {
        Transfer::Next => Some(work.next),
        Transfer::To(to) | Transfer::Enter(to) | Transfer::Back(to) => Some(to),
        Transfer::Stop => None,
    }
}

// What an instruction reads, writes and goes to.
pub(crate) fn deeds_of_work(work: &Work) -> Deeds
    ensures { deed_events result ≡ work_events work.now }
{
    Deeds {
        reads: work.reads,
        write: work.after.write,
        goto: goto_of(work),
    }
}

// A transfer alone.
fn transfer_to(goto: Option<u64>) -> Deeds
    ensures { deed_events result ≡ goto_events goto }
{
    Deeds {
        reads: Reads::Nothing,
        write: None,
        goto,
    }
}

// What a stub does: it reads its slot and goes to the word there.
fn stub_deeds(world: &World, slot: u64, to: u64) -> Deeds
    ensures { deed_events result ≡ Read (slot_address world.now slot) 8 ∷ Goto to ∷ [] }
{
    Deeds {
        reads: Reads::One(Access {
            at: sum(world.load, slot),
            size: 8,
        }),
        write: None,
        goto: Some(to),
    }
}

// Whether the probe does not come back.
pub(crate) fn probe_traps(machine: &Machine, world: &World) -> bool
    ensures { result ≡ probe_traps world.now (registers_of machine.now.registers) }
{
    let rsp = machine.registers[4].wrapping_add(8);
    rsp < world.stack_low || rsp - world.stack_low < machine.registers[0]
}

// The return address of what was entered last.
fn return_address(machine: &Machine) -> Option<u64>
    ensures { result ≡ back_of (state_of machine.now).active }
{
    match machine.active.last() {
        Some(top) => Some(top.back),
        None => None,
    }
}

// What the probe does, which does not come back where it traps.
fn probe_deeds(machine: &Machine, world: &World) -> Deeds
    ensures { deed_events result
        ≡ (if probe_traps world.now (registers_of machine.now.registers) then [] else goto_events
        (back_of (state_of machine.now).active)) }
{
    if probe_traps(machine, world) {
        transfer_to(None)
    } else {
        transfer_to(return_address(machine))
    }
}

// What the step of what is none of the module's code does.
pub(crate) fn outer_deeds(machine: &Machine, world: &World, outer: Outer) -> Deeds
    ensures { deed_events result ≡ outer_events world.now (state_of machine.now) outer }
{
    match outer {
        Outer::Stub { slot, to } => stub_deeds(world, slot, to),
        Outer::Host => transfer_to(return_address(machine)),
        Outer::Probe => probe_deeds(machine, world),
    }
}

// What the next step does.
pub(crate) fn deeds_of(
    machine: &Machine,
    module: &Module,
    world: &World,
    choice: &Choice,
    thing: &Thing,
) -> Deeds
    requires whole { IsWhole «module».now }
    requires placed { IsPlaced «module».now world.now }
    requires stands { StandsAt (view_of «module».now) world.now machine.now.rip
        (state_of machine.now).active (here_of thing.now) }
    requires known { IsKnown (view_of «module».now) world.now thing.now }
    ensures { deed_events result
        ≡ events (view_of «module».now) world.now (state_of machine.now)
        (here_of thing.now) choice.now }
{
    match *thing {
        Thing::Insn(insn, len) => {
            let work = work_of(machine, module, world, choice, &insn, len);
            deeds_of_work(&work)
        }
        Thing::Outer(outer) => outer_deeds(machine, world, outer),
        Thing::Nowhere => transfer_to(Some(machine.rip)),
    }
}
