//! The checks of a function's states: what must hold where an instruction begins with a state.
#![tactic(auto)]

mod accesses;
mod checks;
mod harmless;
mod laws;
mod lowest;
mod readable;
mod statements;
mod transfers;

pub use checks::{check, check_and_change, check_of_code};
pub use laws::{
    checks_are_conditions, least_table_is_safe, lower_states_pass, rounds_of_safe_functions_pass,
    stable_rounds_are_safe, stops_are_checks,
};
