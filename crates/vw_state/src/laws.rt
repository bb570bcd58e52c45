//! Facts about the definitions, each the contract of a function that does nothing.

ghost use Rattle.std.specs.Prelude.{◌≡◌, ◌≤◌, ℕ, List, [], length, Contains};
ghost use Rattle.std.specs.List.{All, AllByRecursion};
ghost use Rattle.vw_insn.specs.declared.instruction.Insn.{Insn};
ghost use Rattle.vw_lift.specs.Lifted.{steps};
ghost use Rattle.vw_stmt.specs.Lifted.{IsLifted};
ghost use Rattle.vw_domain.specs.FormLaws.{HasDisplacement};
ghost use Rattle.vw_image.specs.Image.{Contents, image_of};
ghost use Rattle.vw_layout.specs.Layout.{IsModule, declared_functions};
ghost use Rattle.vw_layout.specs.declared.functions.Function.{Function};
ghost use Rattle.vw_layout.specs.declared.layout.Module.{Module as Declared};
ghost use Rattle.vw_layout.specs.Layout.{IsWhole};
ghost use Rattle.vw_rows.specs.Numbers.{IsBytes};
ghost use Rattle.vw_stmt.specs.declared.operands.Var.{Var};
ghost use Rattle.vw_domain.specs.declared.parts.Parts.{Parts};
ghost use Rattle.vw_domain.specs.Abstract.{Abstract};
ghost use Rattle.vw_state.specs.Code.{code_at, BeginsAt};
ghost use Rattle.vw_state.specs.Context.{Context, code_of, context_of, lengths_of};
ghost use Rattle.vw_state.specs.EdgeLaws.{EdgeLaws};
ghost use Rattle.vw_state.specs.Laws.{HasSites, EdgesRise, EdgesAreValid, EdgesGrow};
ghost use Rattle.vw_state.specs.Post.{PostBy, edges_by};

use vw_decode::read_is_spelling;
use vw_domain::{
    branches_are_sound, calls_are_sound, edges_are_decided, forms_tell_states,
    instruction_ends_are_sound, state_forms_are_kept, statement_lists_are_sound, states_have_forms,
};
use vw_image::segments_are_bounded;
use vw_layout::{Module, functions_are_code, tables_are_few};
use vw_lift::lists_are_in_form;
use vw_rows::{as_bytes, spelled_is_listed};

/// Each point of code has one list of edges with a state, the one that the bytes are read to.
pub fn edges_are_post()
    ensures are { (f : Context) (targets : Var → Abstract → List ℕ) (at : ℕ) (state : Parts)
        → IsBytes (code_of f) → PostBy f targets at state (edges_by f targets at state) }
    ensures only { (f : Context) (targets : Var → Abstract → List ℕ) (at : ℕ) (state : Parts)
        (edges : List (ℕ × Parts)) → IsBytes (code_of f) → PostBy f targets at state edges
        → edges ≡ edges_by f targets at state }
{
    read_is_spelling();
}

// The laws on which those of the edges rest.
pub(crate) fn laws_of_edges()
    ensures { EdgeLaws }
{
    spelled_is_listed();
    lists_are_in_form();
    statement_lists_are_sound();
    instruction_ends_are_sound();
    branches_are_sound();
    edges_are_decided();
    calls_are_sound();
    state_forms_are_kept();
    forms_tell_states();
    states_have_forms();
    edges_are_post();
}

/// The edges of a greater state are greater, where jumps through registers go to fixed points, and edges carry valid
/// states.
pub fn edges_rise()
    ensures rise { (f : Context) → IsBytes (code_of f) → HasSites f → EdgesRise f }
    ensures valid { (f : Context) → IsBytes (code_of f) → HasSites f → EdgesAreValid f }
{
    laws_of_edges();
}

/// An edge carries little more than the state that it leaves.
pub fn edges_grow_slowly()
    ensures { (f : Context) → IsBytes (code_of f) → HasSites f → EdgesGrow f }
{
    laws_of_edges();
}

/// The tables of a module have at most 65,536 entries each.
pub fn tables_are_short()
    ensures { (m : Declared) → IsWhole m → All (λ n. n ≤ 65536) (lengths_of m.tables) }
{
    tables_are_few();
}

/// What the equations of a module's functions read of it is in its ranges, where its file is one of bytes.
pub fn functions_have_sites()
    ensures { (m : Declared) (f : Function) → IsWhole m → IsBytes m.image.bytes
        → Contains m.functions f → HasSites (context_of m f) }
{
    tables_are_few();
}

/// The same of a module that is at hand. Takes no memory.
pub fn sites_are_in_range(loaded: &Module)
    requires { IsWhole loaded.now }
    ensures { (f : Function) → Contains loaded.now.functions f
        → HasSites (context_of loaded.now f) }
{
    functions_have_sites();
    as_bytes(loaded.image.bytes());
}

/// The code of each function of a module that is at hand is of bytes. Takes no memory.
pub fn codes_are_bytes(loaded: &Module)
    requires { IsWhole loaded.now }
    ensures { (f : Function) → IsBytes (code_of (context_of loaded.now f)) }
{
    as_bytes(loaded.image.bytes());
}

/// The code of each function of a module has as many bytes as the function's size says. So its points are 0 to
/// its size.
pub fn code_has_its_size()
    ensures { (file : List ℕ) (f : Function) → IsModule file → Contains (declared_functions file) f
        → length (code_at (image_of file) f.entry f.size) ≡ f.size }
{
    functions_are_code();
    segments_are_bounded();
}

/// From an entry no more bytes of code are taken than are asked for.
pub fn code_is_short()
    ensures { (image : Contents) (entry size : ℕ) → length (code_at image entry size) ≤ size }
{}

/// The statements of an instruction that is spelled have the fields that such statements can have, and displacements of
/// 32 bits.
pub fn statements_have_displacements()
    ensures { (code : List ℕ) (at : ℕ) (i : Insn) (len : ℕ) → IsBytes code → BeginsAt code at i len
        → AllByRecursion HasDisplacement (steps i) × AllByRecursion IsLifted (steps i) }
{
    spelled_is_listed();
    lists_are_in_form();
}
