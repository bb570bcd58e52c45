//! The theorem on safe tables, the contract of a function that does nothing.

ghost use Rattle.std.specs.Prelude.{ℕ, List};
ghost use Rattle.vw_layout.specs.Layout.{IsModule};
ghost use Rattle.vw_rows.specs.Numbers.{IsBytes};
ghost use Rattle.vw_state.specs.declared.tables.Tables.{Tables};
ghost use Rattle.vw_checks.specs.Modules.{AreSafe};
ghost use Rattle.vw_machine.specs.Module.{declared_module, module_of};
ghost use Rattle.vw_sandbox.specs.Maps.{IsSandboxedBy};
ghost use Rattle.vw_sandbox.specs.MapOf.{map_of};

use crate::gathered::file_laws;
use crate::table_laws::safe_states_are_sandboxed;
use vw_checks::checks_are_conditions;
use vw_decode::read_is_spelling;
use vw_domain::{
    edges_are_decided, entry_is_state, forms_tell_states, state_forms_are_kept, states_have_forms,
};
use vw_layout::{call_targets_stand, functions_ascend};
use vw_rows::spelled_is_listed;
use vw_state::{edges_are_post, functions_have_sites, statements_have_displacements};

/// A module stays in its sandbox, and keeps to tables that are safe: the tables may be the least ones or others.
pub fn safe_tables_are_sandboxed()
    ensures { (file : List ℕ) (tables : Tables) → IsModule file → IsBytes file
        → AreSafe (declared_module file) tables
        → IsSandboxedBy (module_of file) (map_of (declared_module file) tables) }
{
    safe_states_are_sandboxed();
    edges_are_post();
    functions_have_sites();
    statements_have_displacements();
    spelled_is_listed();
    checks_are_conditions();
    states_have_forms();
    forms_tell_states();
    entry_is_state();
    state_forms_are_kept();
    edges_are_decided();
    call_targets_stand();
    read_is_spelling();
    functions_ascend();
    file_laws();
}
