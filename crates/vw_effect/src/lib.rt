//! What one instruction of x86-64 reads and does: its reads by the registers before it, and its
//! registers, flags, write and transfer once a number was loaded. Each function here equals its
//! definition in `vw_insn` (SDM volume 2, "Operation" of each instruction).
#![tactic(auto)]

mod accesses;
mod addresses;
mod arithmetic;
mod arithmetic_effects;
mod before;
mod building;
mod conditions;
mod control_effects;
mod effects;
mod laws;
mod move_effects;
mod outcome;
mod reading;
mod registers;
mod status;
mod ways;
mod words;
mod xmm_effects;

pub use accesses::{Access, Reads, Write};
pub use effects::effect;
pub use laws::{comparisons_compare, contraries_exclude, reads_are_short, sums_carry};
pub use outcome::{After, Open, Transfer};
pub use reading::reads;
pub use status::Flags;
pub use ways::{Way, may_trap, way_of};

#[cfg(test)]
mod tests;
