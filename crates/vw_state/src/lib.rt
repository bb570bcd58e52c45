//! A function in its module: the addresses and the values of its instructions, the edges that leave a point with a state,
//! and the tables of states that the analysis answers.
#![tactic(auto)]

mod bounds;
mod branch_rules;
mod copies;
mod edges;
mod flags;
mod flow_edges;
mod jumps;
mod laws;
mod loads;
mod memory;
mod module_tables;
mod moves;
mod opcodes;
mod operand;
mod probe_calls;
mod puts;
mod registers;
mod round_laws;
mod site;
mod statements;
mod stores;
mod tables;

pub use bounds::bounds_of;
pub use edges::{
    PointInsn, direct_target, flow_of, has_no_edge, instruction_at, leaves_directly,
    leaves_function, post, post_behind, post_of_code, post_with, state_behind,
};
pub use jumps::{JumpTable, jump_table, stays_inside};
pub use laws::{
    code_has_its_size, code_is_short, codes_are_bytes, edges_are_post, edges_grow_slowly,
    edges_rise, functions_have_sites, sites_are_in_range, statements_have_displacements,
    tables_are_short,
};
pub use memory::Address;
pub use module_tables::{lengths_of, tables_of};
pub use operand::address;
pub use registers::known_of;
pub use round_laws::{
    graph_checks_rise, jumps_stay, least_tables_are_one, more_jumps_more_edges, rounds_are_lower,
    stable_rounds_solve,
};
pub use site::{Site, code_of};
pub use statements::{apply, change_by_stmt, change_by_stmts, value_after};
pub use tables::{FunctionTable, Place, PointState, Tables, Verdict};
