//! The first event of a step that is not permitted.

ghost use Rattle.vw_layout.specs.Layout.{IsWhole};
ghost use Rattle.vw_machine.specs.Module.{view_of};
ghost use Rattle.vw_machine.specs.Kept.{state_of};
ghost use Rattle.vw_machine.specs.Found.{here_of, IsKnown, deed_events, IsRefusal};
ghost use Rattle.vw_machine.specs.Answers.{IsPlaced};

use crate::doing::Deeds;
use crate::judging::permits;
use crate::slots::slots_of;
use crate::standing::Thing;
use crate::{Event, Machine, World};
use vw_layout::Module;

// The first event of what a step does that is not permitted.
pub(crate) fn first_refused(
    machine: &Machine,
    module: &Module,
    world: &World,
    thing: &Thing,
    deeds: &Deeds,
) -> Option<Event>
    requires whole { IsWhole «module».now }
    requires placed { IsPlaced «module».now world.now }
    requires known { IsKnown (view_of «module».now) world.now thing.now }
    ensures { IsRefusal (view_of «module».now) world.now (state_of machine.now)
        (here_of thing.now) (deed_events deeds.now) result }
{
    let slots = slots_of(deeds);
    for slot in &slots {
        if let Some(event) = slot {
            if !permits(machine, module, world, thing, *event) {
                return Some(*event);
            }
        }
    }
    None
}
