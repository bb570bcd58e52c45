//! The outside of the program: files that are read and places that are written, both as traits whose
//! contracts say what was given or taken and which calls failed.
#![tactic(auto)]

mod counts;
mod failed;
mod file_shelf;
mod front;
mod memory_shelf;
mod memory_sink;
mod never_fails;
mod reading;
mod shelf;
mod sink;
mod std_sink;
#[cfg(test)]
mod tests;
mod writing;

pub use failed::Failed;
pub use file_shelf::FileShelf;
pub use memory_shelf::{MemoryShelf, ShelfFile};
pub use memory_sink::MemorySink;
pub use never_fails::NeverFails;
pub use reading::{ReadError, read_all};
pub use shelf::Shelf;
pub use sink::Sink;
pub use std_sink::StdSink;
pub use writing::write_all_of;
