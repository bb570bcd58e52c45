//! What the analysis knows at a point of a function: the abstract states, as one lattice.
#![tactic(auto)]

mod after_calls;
mod branch_edges;
mod cells;
mod changes;
mod edge_tags;
mod equation_laws;
mod forgets;
mod gone;
mod laws;
mod part_checks;
mod parts;
mod reads;
mod refines;
mod registers;
mod slots;
mod state;
mod state_of;
mod state_parts;
mod stores;
mod writes;

pub use branch_edges::frame_holds_places;
pub use equation_laws::{
    branches_are_sound, calls_are_sound, edges_are_decided, instruction_ends_are_sound,
    laws_of_values, lower_forms_stand_for_less, state_forms_are_kept, statement_lists_are_sound,
    statements_are_sound, transfer_checks_rise,
};
pub use laws::{
    entry_is_state, forms_tell_states, lower_states_stand_for_less, state_ranks_are_small,
    states_have_forms,
};
pub use parts::{Fact, Parts};
pub use refines::Comparison;
pub use registers::Register;
pub use state::{State, entry_state};
pub use state_of::PartsError;
pub use state_parts::{Slot, StateParts};
pub use stores::Content;
