//! Tables of jumps: where the entries of one lead, as the image holds them after relocation.
#![tactic(auto)]

mod targets;

pub use targets::target;
