//! The report of tables: a text that says which states they give to points, and from which they are read again.
#![tactic(auto)]

mod fail;
mod kinds;
mod print_states;
mod print_tables;
mod print_values;
mod read_fields;
mod read_numbers;
mod read_tables;
mod read_values;
mod report_laws;

pub use print_tables::write_report;
pub use read_numbers::decimal_of;
pub use read_tables::{ReportError, read_report};
pub use report_laws::{least_tables_are_of_points, tables_have_one_text, texts_tell_tables};

#[cfg(test)]
mod byte_tests;
#[cfg(test)]
mod tests;
