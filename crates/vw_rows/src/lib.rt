//! The opcode rows: each opcode, digit, form and prefix of the SDM's opcode maps that guest code may
//! hold, what instruction it is, and how its operands, widths and immediate are spelled.
#![tactic(auto)]

mod forms;
pub mod laws;
mod layout;
pub mod levels;
mod lookup;
mod meaning;
mod numbers;
mod parts;
mod patterns;
mod shape;
mod spelling;
mod tables;

pub use forms::{Immediate, Kind, Operands, Row, Sizing};
pub use layout::{
    displacement_length, has_fixed, has_modrm, immediate_length, takes_sib, width_at,
};
pub use lookup::{is_match, one_row_per_key, row_numbered, row_of};
pub use meaning::{built, insn_of};
pub use numbers::as_bytes;
pub use parts::{Modrm, Parts, rex_w};
pub use patterns::{Form, Key, Map, Pattern, Prefix, Prefixes};
pub use shape::{Shape, shape_of};
pub use spelling::spelled_is_listed;
pub use tables::all_rows;

#[cfg(test)]
mod tests;
