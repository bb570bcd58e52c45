//! The next step of a machine.

ghost use Rattle.std.specs.Prelude.{◌≡◌, ◌+◌, ◌≤◌, ◌∷◌, List, vec_len, vec_capacity, IfOk, OnErr};
ghost use Rattle.vw_insn.specs.Listed.{IsListed};
ghost use Rattle.vw_insn.specs.Words.{put};
ghost use Rattle.vw_insn.specs.Effect.{raised};
ghost use Rattle.vw_effect.specs.Meaning.{registers_of, after_of, transfer_of};
ghost use Rattle.vw_layout.specs.Layout.{IsWhole};
ghost use Rattle.vw_machine.specs.Module.{view_of};
ghost use Rattle.vw_machine.specs.State.{Activation, MachineState};
ghost use Rattle.vw_machine.specs.Standing.{StandsAt, Code};
ghost use Rattle.vw_machine.specs.Step.{arrive, host_registers, host_leaves};
ghost use Rattle.vw_machine.specs.Kept.{activation_of, activations_of, state_of};
ghost use Rattle.vw_machine.specs.Found.{here_of_outer, IsKnownOuter, IsEnding, active_after, work_ending, probe_ending, outer_ending};
ghost use Rattle.vw_machine.specs.Answers.{IsPlaced, EndsAs, IsAnswer};

use crate::choosing::{flags_in, number_of};
use crate::doing::{Work, deeds_of_work, goto_of, outer_deeds, probe_traps, work_of};
use crate::refusing::first_refused;
use crate::standing::{Outer, Thing, thing_at};
use crate::writing::{leave_below, settle};
use crate::{Choice, Event, Frame, Machine, Outcome, World};
use std::alloc::Global;
use std::collections::BTreeMap;
use vw_bits::OutOfMemory;
use vw_effect::Transfer;
use vw_insn::Insn;
use vw_layout::Module;

// How a step that went through ends, by where control has come to.
fn arrival(machine: &Machine, world: &World) -> Outcome
    ensures { (s : MachineState) → IsEnding s (arrive world.now (state_of machine.now)) result
        (state_of machine.now) }
{
    if machine.rip == world.host_return {
        Outcome::Returned
    } else {
        Outcome::Went
    }
}

// Puts back the activation that made an instruction, and on it what a call enters. A return ends it.
fn move_on(active: &mut Vec<Frame>, alloc: Global, top: Frame, work: &Work)
    requires { vec_len active.old + 2 ≤ vec_capacity active.old }
    ensures { activations_of active.new.items
        ≡ active_after (after_of work.now.after) work.now.next
        (transfer_of work.now.after.transfer) (activation_of top)
        (activations_of active.old.items) }
{
    match work.after.transfer {
        Transfer::Next | Transfer::To(_) => active.push_reserved(top),
        Transfer::Enter(to) => {
            active.push_reserved(top);
            active.push_reserved(Frame {
                entry: to,
                rsp0: work.after.registers[4],
                back: work.next,
                written: BTreeMap::new(alloc),
            });
        }
        Transfer::Back(_) | Transfer::Stop => {}
    }
}

// An instruction does what it does and goes on, or traps.
fn go(
    machine: &mut Machine,
    alloc: Global,
    world: &World,
    work: &Work,
) -> Result<Outcome, OutOfMemory>
    ensures ok { IfOk result (λ outcome. (top : Activation) (rest : List Activation)
        → (state_of machine.old).active ≡ top ∷ rest
        → IsEnding (state_of machine.old)
        (work_ending world.now (state_of machine.old) top rest work.now) outcome
        (state_of machine.new)) }
    ensures err { OnErr result (state_of machine.new ≡ state_of machine.old) }
{
    let Some(to) = goto_of(work) else {
        return Ok(Outcome::Trapped);
    };
    // Once the last activation is taken off there is room for it and for another one.
    machine.active.reserve(1)?;
    let Some(mut top) = machine.active.pop() else {
        return Ok(Outcome::Trapped);
    };
    match settle(&mut machine.bytes, &mut top, world, work.after.write) {
        Ok(()) => {
            machine.registers = work.after.registers;
            machine.flags = work.after.flags;
            machine.rip = to;
            move_on(&mut machine.active, alloc, top, work);
            Ok(arrival(machine, world))
        }
        Err(refused) => {
            machine.active.push_reserved(top);
            Err(refused)
        }
    }
}

// A stub goes to the word in its slot, and its activation is then that of what stands there.
fn follow(machine: &mut Machine, world: &World, to: u64) -> Result<Outcome, OutOfMemory>
    ensures ok { IfOk result (λ outcome. (top : Activation) (rest : List Activation)
        → (state_of machine.old).active ≡ top ∷ rest
        → IsEnding (state_of machine.old)
        (arrive world.now (record (state_of machine.old) {
          rip = to;
          active = record top { entry = to } ∷ rest;
        })) outcome (state_of machine.new)) }
    ensures err { OnErr result (state_of machine.new ≡ state_of machine.old) }
{
    machine.active.reserve(1)?;
    let Some(mut top) = machine.active.pop() else {
        return Ok(Outcome::Trapped);
    };
    top.entry = to;
    machine.active.push_reserved(top);
    machine.rip = to;
    Ok(arrival(machine, world))
}

// A function of the host goes back and leaves these registers.
fn come_back(
    machine: &mut Machine,
    world: &World,
    choice: &Choice,
    registers: [u64; 16],
) -> Result<Outcome, OutOfMemory>
    ensures ok { IfOk result (λ outcome. (top : Activation) (rest : List Activation)
        → (state_of machine.old).active ≡ top ∷ rest
        → IsEnding (state_of machine.old)
        (arrive world.now (host_leaves world.now (state_of machine.old) top rest
        (registers_of registers) choice.now)) outcome (state_of machine.new)) }
    ensures err { OnErr result (state_of machine.new ≡ state_of machine.old) }
{
    let below = choice.below.as_slice();
    leave_below(&mut machine.bytes, world, machine.registers[4], below)?;
    let Some(top) = machine.active.pop() else {
        return Ok(Outcome::Trapped);
    };
    machine.registers = registers;
    machine.rip = top.back;
    machine.flags = flags_in(choice.flags);
    Ok(arrival(machine, world))
}

// The registers after a function of the host (psABI, "Registers").
fn host_registers(registers: &[u64; 16], choice: &Choice) -> [u64; 16]
    ensures { registers_of result ≡ host_registers (registers_of registers.now) choice.now }
{
    [
        number_of(choice, 0),
        number_of(choice, 1),
        number_of(choice, 2),
        registers[3],
        registers[4].wrapping_add(8),
        registers[5],
        number_of(choice, 3),
        number_of(choice, 4),
        number_of(choice, 5),
        number_of(choice, 6),
        number_of(choice, 7),
        number_of(choice, 8),
        registers[12],
        registers[13],
        registers[14],
        registers[15],
    ]
}

// The registers after the probe.
fn probe_registers(registers: &[u64; 16]) -> [u64; 16]
    ensures { registers_of result
        ≡ put (registers_of registers.now) 4 (raised (registers_of registers.now 4)) }
{
    let mut kept = *registers;
    kept[4] = kept[4].wrapping_add(8);
    kept
}

// The probe goes back where the stack has room enough, or traps.
fn pass_probe(machine: &mut Machine, world: &World, choice: &Choice) -> Result<Outcome, OutOfMemory>
    ensures ok { IfOk result (λ outcome. (top : Activation) (rest : List Activation)
        → (state_of machine.old).active ≡ top ∷ rest
        → IsEnding (state_of machine.old)
        (probe_ending world.now (state_of machine.old) top rest choice.now) outcome
        (state_of machine.new)) }
    ensures err { OnErr result (state_of machine.new ≡ state_of machine.old) }
{
    if probe_traps(machine, world) {
        Ok(Outcome::Trapped)
    } else {
        let registers = probe_registers(&machine.registers);
        come_back(machine, world, choice, registers)
    }
}

// A step of an instruction.
fn insn_step(
    machine: &mut Machine,
    alloc: Global,
    module: &Module,
    world: &World,
    choice: &Choice,
    insn: &Insn,
    len: u32,
) -> Result<Outcome, OutOfMemory>
    requires whole { IsWhole «module».now }
    requires placed { IsPlaced «module».now world.now }
    requires listed { IsListed insn.now }
    requires stands { StandsAt (view_of «module».now) world.now machine.old.rip
        (state_of machine.old).active (Code insn.now len) }
    ensures ok { IfOk result (λ outcome. EndsAs (view_of «module».now) world.now
        (state_of machine.old) choice.now (Code insn.now len) outcome (state_of machine.new)) }
    ensures err { OnErr result (state_of machine.new ≡ state_of machine.old) }
{
    let work = work_of(machine, module, world, choice, insn, len);
    let thing = Thing::Insn(*insn, len);
    match first_refused(machine, module, world, &thing, &deeds_of_work(&work)) {
        Some(event) => Ok(Outcome::Violation(event)),
        None => go(machine, alloc, world, &work),
    }
}

// What is none of the module's code goes on: to the word in a stub's slot, or back from the host.
fn pass_outer(
    machine: &mut Machine,
    world: &World,
    choice: &Choice,
    outer: Outer,
) -> Result<Outcome, OutOfMemory>
    ensures ok { IfOk result (λ outcome. (top : Activation) (rest : List Activation)
        → (state_of machine.old).active ≡ top ∷ rest
        → IsEnding (state_of machine.old)
        (outer_ending world.now (state_of machine.old) top rest outer choice.now) outcome
        (state_of machine.new)) }
    ensures err { OnErr result (state_of machine.new ≡ state_of machine.old) }
{
    match outer {
        Outer::Stub { slot: _, to } => follow(machine, world, to),
        Outer::Host => {
            let registers = host_registers(&machine.registers, choice);
            come_back(machine, world, choice, registers)
        }
        Outer::Probe => pass_probe(machine, world, choice),
    }
}

// A step of what is none of the module's code.
fn outer_step(
    machine: &mut Machine,
    module: &Module,
    world: &World,
    choice: &Choice,
    outer: Outer,
) -> Result<Outcome, OutOfMemory>
    requires whole { IsWhole «module».now }
    requires placed { IsPlaced «module».now world.now }
    requires known { IsKnownOuter (view_of «module».now) world.now outer }
    requires stands { StandsAt (view_of «module».now) world.now machine.old.rip
        (state_of machine.old).active (here_of_outer outer) }
    ensures ok { IfOk result (λ outcome. EndsAs (view_of «module».now) world.now
        (state_of machine.old) choice.now (here_of_outer outer) outcome
        (state_of machine.new)) }
    ensures err { OnErr result (state_of machine.new ≡ state_of machine.old) }
{
    let thing = Thing::Outer(outer);
    let deeds = outer_deeds(machine, world, outer);
    match first_refused(machine, module, world, &thing, &deeds) {
        Some(event) => Ok(Outcome::Violation(event)),
        None => pass_outer(machine, world, choice, outer),
    }
}

impl Machine {
    /// Makes the next step. Violation with the first of its events that is not permitted, and then nothing changes;
    /// else Trapped where the step traps, and nothing changes either; else Returned where control has come to the
    /// host's return address, and else Went. Where nothing stands at rip, the answer is Violation with the transfer to it.
    /// OutOfMemory where the allocator refuses a request: then the machine stands for the state that it stood for.
    pub fn step(
        &mut self,
        alloc: Global,
        module: &Module,
        world: &World,
        choice: &Choice,
    ) -> Result<Outcome, OutOfMemory>
        requires whole { IsWhole «module».now }
        requires placed { IsPlaced «module».now world.now }
        ensures ok { IfOk result (λ outcome. IsAnswer (view_of «module».now) world.now
            (state_of self.old) choice.now outcome (state_of self.new)) }
        ensures err { OnErr result (state_of self.new ≡ state_of self.old) }
    {
        match thing_at(self, module, world) {
            Thing::Insn(insn, len) => insn_step(self, alloc, module, world, choice, &insn, len),
            Thing::Outer(outer) => outer_step(self, module, world, choice, outer),
            Thing::Nowhere => Ok(Outcome::Violation(Event::Goto { to: self.rip })),
        }
    }
}
