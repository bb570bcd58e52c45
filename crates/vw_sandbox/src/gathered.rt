//! What the crates below say of files, modules and their instances, gathered once for the laws of this crate.

ghost use Rattle.vw_sandbox.specs.Gathered.{FileLaws, ModuleLaws};

use vw_image::{
    code_is_settled, file_bytes_are_memory, segments_are_bounded, words_are_numbered, words_spell,
};
use vw_layout::{call_targets_stand, entries_can_be_called, functions_are_code};
use vw_machine::one_thing_stands;
use vw_state::code_has_its_size;

// what is said of files
pub(crate) fn file_laws()
    ensures { FileLaws }
{
    functions_are_code();
    code_is_settled();
    file_bytes_are_memory();
    segments_are_bounded();
    code_has_its_size();
}

// what is said of files, words, stubs and tables
pub(crate) fn module_laws()
    ensures { ModuleLaws }
{
    file_laws();
    words_spell();
    words_are_numbered();
    call_targets_stand();
    entries_can_be_called();
    one_thing_stands();
}
