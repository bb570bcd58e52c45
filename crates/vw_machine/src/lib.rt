//! The machine that runs a module's functions, one instruction, stub or host step at a time, and what a sandbox permits
//! it.
#![tactic(auto)]

mod calls;
mod choice;
mod choosing;
mod doing;
mod entering;
mod event;
mod image;
mod judging;
mod laws;
mod loading;
mod machine;
mod marks;
mod memory;
mod placing;
mod ranges;
mod refusing;
mod slots;
mod standing;
mod stepping;
mod world;
mod writing;

pub use calls::{events, permitted};
pub use choice::Choice;
pub use event::{Event, Outcome};
pub use laws::{
    globals_end, guard_may_be_written, guard_traps, image_stays, instance_word_is_not_written,
    instance_word_is_read_whole, one_thing_stands, reservation_ends, return_address_stays,
    returns_go_back, unspelled_is_refused, unwritten_is_not_read, views_are_of_files,
};
pub use machine::{Frame, Machine};
pub use world::World;
