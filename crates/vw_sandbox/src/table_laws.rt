//! The theorem on safe tables of abstract states, the contract of a function that does nothing.

ghost use Rattle.std.specs.Prelude.{ℕ, List};
ghost use Rattle.vw_layout.specs.Layout.{IsModule};
ghost use Rattle.vw_machine.specs.Module.{declared_module, module_of};
ghost use Rattle.vw_rows.specs.Numbers.{IsBytes};
ghost use Rattle.vw_sandbox.specs.Maps.{Map, IsSandboxedBy};
ghost use Rattle.vw_sandbox.specs.Tables.{Bounds, Tables, AreSafe, IsMapOf};

use crate::gathered::module_laws;
use vw_decode::read_is_spelling;
use vw_domain::{
    branches_are_sound, calls_are_sound, instruction_ends_are_sound, laws_of_values,
    statement_lists_are_sound, statements_are_sound,
};
use vw_image::{segments_are_bounded, words_spell};
use vw_layout::{entries_are_words, entries_can_be_called, tables_are_data, tables_are_few};
use vw_lift::{effect_is_a_run, lists_are_in_form};
use vw_stmt::words_stay;

/// A module with safe tables of abstract states, for any bounds of values, stays in its sandbox and keeps to the
/// tables: the tables may be the least ones or others.
pub fn safe_states_are_sandboxed()
    ensures { (file : List ℕ) (bounds : Bounds) (tables : Tables) (map : Map)
        → IsModule file → IsBytes file
        → AreSafe (declared_module file) bounds tables
        → IsMapOf (declared_module file) bounds tables map
        → IsSandboxedBy (module_of file) map }
{
    laws_of_values();
    statements_are_sound();
    statement_lists_are_sound();
    instruction_ends_are_sound();
    branches_are_sound();
    calls_are_sound();
    segments_are_bounded();
    read_is_spelling();
    words_spell();
    entries_can_be_called();
    entries_are_words();
    tables_are_few();
    tables_are_data();
    effect_is_a_run();
    lists_are_in_form();
    words_stay();
    module_laws();
}
