//! Values: what an analysis knows of the word in a register or in memory, as a lattice, with the arithmetic, the
//! comparisons and the table look-ups of sandboxed code on them.
//!
//! A value stands for a set of words of 64 bits, which an instance of a module decides (`specs/Stands.antt`). Greater
//! values stand for more (`specs/Values.antt`). Every operation here equals its definition in `specs/`, and the laws of
//! `laws.rt` say of each that its results are valid, that it rises with its operands, and that it stands for what the
//! processor computes.
#![tactic(auto)]

mod bounds;
mod extent;
mod laws;
mod masks;
mod narrowing;
mod order;
mod ranges;
mod refinement;
mod scales;
mod shape;
mod sums;
mod value;

pub use bounds::{Bounds, pow};
pub use laws::{
    ands_are_sound, below_is_greatest, below_is_sound, differences_are_sound, equal_is_sound,
    joins_are_least, joins_rise, low_bits_are_sound, multiples_are_sound, ranks_are_small,
    sums_are_sound, tag_tests_are_sound, values_are_ordered, values_stand,
};
pub use masks::and;
pub use narrowing::{narrow, narrow32};
pub use refinement::{below, equal};
pub use scales::{scale, shl4};
pub use sums::{TableList, add, subtract};
pub use value::{Value, Via};
