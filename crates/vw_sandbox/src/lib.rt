//! What it means that a module stays in its sandbox, and that safe tables keep it there: definitions and laws, and no
//! code that runs.
#![tactic(auto)]

mod gathered;
mod laws;
mod state_laws;
mod table_laws;

pub use laws::{
    Assertions, Claim, asserted_code_is_sandboxed, calls_keep_to_entries,
    jump_entries_are_distances, kept_claims_are_met, reaches_by_choices,
    returning_code_is_sandboxed, runs_begin, sandboxed_by_choices, stated_code_is_sandboxed,
    transfers_keep_to_points, unspelled_code_is_not_sandboxed, writes_stay_in_bounds,
    wrong_heaps_are_refused, wrong_returns_are_refused,
};
pub use state_laws::safe_tables_are_sandboxed;
pub use table_laws::safe_states_are_sandboxed;
