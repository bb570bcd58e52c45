//! The events of what a step does, each in its slot.

ghost use Rattle.std.specs.Prelude.{◌≡◌, [], ◌∷◌, length};
ghost use Rattle.vw_effect.specs.Meaning.{writes_of};
ghost use Rattle.vw_stmt.specs.Accesses.{places_of};
ghost use Rattle.vw_machine.specs.Events.{write_events};
ghost use Rattle.vw_machine.specs.Found.{goto_events, events_in, deed_events};

use crate::Event;
use crate::doing::Deeds;
use vw_effect::{Access, Reads, Write};

fn read_event(read: Access) -> Event
    ensures { result ≡ Event.Read read.at read.size }
{
    Event::Read {
        at: read.at,
        size: read.size,
    }
}

fn write_slot(write: Option<Write>) -> Option<Event>
    ensures { events_in (result ∷ []) ≡ write_events (places_of (writes_of write)) }
{
    match write {
        Some(write) => Some(Event::Write {
            at: write.at,
            size: write.size,
        }),
        None => None,
    }
}

fn goto_slot(goto: Option<u64>) -> Option<Event>
    ensures { events_in (result ∷ []) ≡ goto_events goto }
{
    match goto {
        Some(to) => Some(Event::Goto { to }),
        None => None,
    }
}

// The events in order: two reads at the most, a write, and where control goes.
pub(crate) fn slots_of(deeds: &Deeds) -> [Option<Event>; 4]
    ensures events { events_in result ≡ deed_events deeds.now }
    ensures slots { length result ≡ 4 }
{
    let write = write_slot(deeds.write);
    let goto = goto_slot(deeds.goto);
    match deeds.reads {
        Reads::Nothing => [None, None, write, goto],
        Reads::One(read) => [Some(read_event(read)), None, write, goto],
        Reads::Two(first, second) => {
            [
                Some(read_event(first)),
                Some(read_event(second)),
                write,
                goto,
            ]
        }
    }
}
