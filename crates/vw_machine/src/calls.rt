//! What the next step of a machine does, and whether it is permitted.

ghost use Rattle.std.specs.Prelude.{◌≡◌, ◌↔◌, IsTrue, IfOk};
ghost use Rattle.vw_layout.specs.Layout.{IsWhole};
ghost use Rattle.vw_machine.specs.Module.{view_of};
ghost use Rattle.vw_machine.specs.Permitted.{IsPermitted};
ghost use Rattle.vw_machine.specs.Kept.{state_of};
ghost use Rattle.vw_machine.specs.Found.{deed_events};
ghost use Rattle.vw_machine.specs.Answers.{IsPlaced, AreEvents};

use crate::doing::{Deeds, deeds_of};
use crate::judging::permits;
use crate::laws::one_thing_stands;
use crate::slots::slots_of;
use crate::standing::thing_at;
use crate::{Choice, Event, Machine, World};
use std::alloc::Global;
use vw_bits::{List, OutOfMemory};
use vw_layout::Module;

fn events_of(alloc: Global, deeds: &Deeds) -> Result<List<Event>, OutOfMemory>
    ensures { IfOk result (λ events. events ≡ deed_events deeds.now) }
{
    let slots = slots_of(deeds);
    let mut events = List::new(alloc);
    for slot in &slots {
        if let Some(event) = slot {
            events.push(*event)?;
        }
    }
    Ok(events)
}

/// The events of the next step, in order: its reads, its writes, and where control goes. A step that traps goes
/// nowhere. Where nothing stands at rip, the one event is the transfer to it. OutOfMemory where the allocator refuses a
/// request.
pub fn events(
    alloc: Global,
    machine: &Machine,
    module: &Module,
    world: &World,
    choice: &Choice,
) -> Result<List<Event>, OutOfMemory>
    requires whole { IsWhole «module».now }
    requires placed { IsPlaced «module».now world.now }
    ensures { IfOk result (AreEvents (view_of «module».now) world.now
        (state_of machine.now) choice.now) }
{
    let thing = thing_at(machine, module, world);
    let deeds = deeds_of(machine, module, world, choice, &thing);
    events_of(alloc, &deeds)
}

/// Whether an event is permitted to the next step. Where nothing stands at rip, none is. Takes no memory.
pub fn permitted(machine: &Machine, module: &Module, world: &World, event: &Event) -> bool
    requires whole { IsWhole «module».now }
    requires placed { IsPlaced «module».now world.now }
    ensures { IsTrue result ↔ IsPermitted (view_of «module».now) world.now
        (state_of machine.now) event.now }
{
    one_thing_stands();
    let thing = thing_at(machine, module, world);
    permits(machine, module, world, &thing, *event)
}
