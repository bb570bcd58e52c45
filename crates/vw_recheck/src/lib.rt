//! The check of given tables: whether they are safe, whatever made them, and else the lowest place at which they are not.
#![tactic(auto)]

mod landing;
mod module;
mod table;

pub use module::recheck;
