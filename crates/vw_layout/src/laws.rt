//! Facts about the definitions, each the contract of a function that does nothing.

ghost use Rattle.std.specs.Prelude.{◌≡◌, ◌≢◌, ℕ, ◌+◌, ◌*◌, ◌≤◌, ◌<◌, ◌⊎◌, ◌↔◌, ◌||◌, true, List, length, Some, is_some, Contains, slice_get};
ghost use Rattle.vw_dynamic.specs.Dynamic.{file_imports};
ghost use Rattle.vw_image.specs.Image.{Contents, image_of};
ghost use Rattle.vw_image.specs.Laws.{IsNumbered};
ghost use Rattle.vw_image.specs.Stubs.{stub_at};
ghost use Rattle.vw_image.specs.Words.{word_at};
ghost use Rattle.vw_image.specs.declared.stub.Stub.{Stub};
ghost use Rattle.vw_layout.specs.Calls.{call_target, is_destination, is_entry, is_probe_stub, module_stub};
ghost use Rattle.vw_layout.specs.Layout.{IsModule, declared_functions, declared_tables};
ghost use Rattle.vw_layout.specs.Laws.{IsCode, IsData};
ghost use Rattle.vw_layout.specs.Tables.{is_pointer};
ghost use Rattle.vw_layout.specs.declared.functions.Function.{Function};
ghost use Rattle.vw_layout.specs.declared.tables.TableEntry.{TableEntry};
ghost use Rattle.vw_layout.specs.declared.tables.TableInfo.{TableInfo};

use crate::CallTarget;
use vw_image::{Word, words_are_numbered};

/// The bytes of each function of a module are in the file part of a segment that is read and executed.
pub fn functions_are_code()
    ensures { (file : List ℕ) (f : Function) → IsModule file → Contains (declared_functions file) f → IsCode file f }
{}

/// The functions of a module stand by strictly ascending entries, so that no two have one entry. Each ends at
/// or before the entry of those behind it, so that no two share a byte. There are at most 65,536.
pub fn functions_ascend()
    ensures ascend { (file : List ℕ) (j k : ℕ) (f g : Function) → IsModule file → slice_get (declared_functions file) j ≡ Some f → slice_get (declared_functions file) k ≡ Some g → j < k → f.entry < g.entry }
    ensures apart { (file : List ℕ) (j k : ℕ) (f g : Function) → IsModule file → slice_get (declared_functions file) j ≡ Some f → slice_get (declared_functions file) k ≡ Some g → j < k → f.entry + f.size ≤ g.entry }
    ensures few { (file : List ℕ) → IsModule file → length (declared_functions file) ≤ 65536 }
{}

/// A module has at most 65,536 imports (rule 36): distinct names that its relocations bind.
pub fn imports_are_few()
    ensures { (file : List ℕ) → IsModule file → length (file_imports file) ≤ 65536 }
{}

/// The names of a module's imports differ, so that one number at most is that of the import that probes the stack.
pub fn import_names_differ()
    ensures { (file : List ℕ) (j k : ℕ) (name : List ℕ) → slice_get (file_imports file) j ≡ Some name → slice_get (file_imports file) k ≡ Some name → j ≡ k }
{}

/// A module has at most 64 tables, of at most 65,536 entries each.
pub fn tables_are_few()
    ensures tables { (file : List ℕ) → IsModule file → length (declared_tables file) ≤ 64 }
    ensures entries { (file : List ℕ) (t : TableInfo) → IsModule file → Contains (declared_tables file) t → length t.entries ≤ 65536 }
{}

/// The bytes of each table of a module are in the file part of a segment that is read and not executed.
pub fn tables_are_data()
    ensures { (file : List ℕ) (t : TableInfo) → IsModule file → Contains (declared_tables file) t → IsData file t }
{}

/// The entries of a table stand one behind another in the image, each the plain word of its tag before that of its
/// pointer.
pub fn entries_are_words()
    ensures tag { (file : List ℕ) (t : TableInfo) (k : ℕ) (e : TableEntry) → IsModule file → Contains (declared_tables file) t → slice_get t.entries k ≡ Some e → word_at (image_of file) (t.address + 16 * k) 8 ≡ Word.Plain e.tag }
    ensures pointer { (file : List ℕ) (t : TableInfo) (k : ℕ) (e : TableEntry) → IsModule file → Contains (declared_tables file) t → slice_get t.entries k ≡ Some e → word_at (image_of file) (t.address + 16 * k + 8) 8 ≡ e.pointer }
{}

/// The tag of an entry is below 2^32 - 1, or 2^64 - 1 where the entry is empty. The pointer of one that is not empty
/// can be called: a declared function or a stub of the module is at its address, or it is an import; and what is
/// called is not the probe. The number of an import is below the number of imports.
pub fn entries_can_be_called()
    ensures tag { (file : List ℕ) (t : TableInfo) (e : TableEntry) → IsModule file → Contains (declared_tables file) t → Contains t.entries e → (e.tag < 4294967295) ⊎ (e.tag ≡ 18446744073709551615) }
    ensures pointer { (file : List ℕ) (t : TableInfo) (e : TableEntry) → IsModule file → Contains (declared_tables file) t → Contains t.entries e → e.tag ≢ 18446744073709551615 → is_pointer (image_of file) (declared_functions file) e.pointer ≡ true }
    ensures numbered { (file : List ℕ) (t : TableInfo) (e : TableEntry) → IsModule file → Contains (declared_tables file) t → Contains t.entries e → IsNumbered (length (file_imports file)) e.pointer }
{
    words_are_numbered();
}

/// A call enters the probe exactly where its stub stands, and something exactly where a declared function begins or
/// a stub of the module stands: one whose bytes stand there, and which goes to an import or a declared function.
pub fn call_targets_stand()
    ensures probe { (image : Contents) (functions : List Function) (address : ℕ) → (call_target image functions address ≡ Some CallTarget.Probe) ↔ (is_probe_stub image address ≡ true) }
    ensures some { (image : Contents) (functions : List Function) (address : ℕ) → is_some (call_target image functions address) ≡ (is_entry functions address || is_some (module_stub image functions address)) }
    ensures stub { (image : Contents) (functions : List Function) (address : ℕ) (stub : Stub) → module_stub image functions address ≡ Some stub → (stub_at image address ≡ Some stub) × (is_destination functions stub.to ≡ true) }
{}
