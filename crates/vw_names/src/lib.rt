//! Divisions of places into classes of equal value.
#![tactic(auto)]

mod classes;
mod groups;
mod lookup;
mod moves;
mod order;
mod refine;
mod spot;

pub use classes::Classes;
pub use spot::{Spot, places_have_own_numbers};

#[cfg(test)]
mod tests;
