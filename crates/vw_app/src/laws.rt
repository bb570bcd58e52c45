//! Facts about the definitions of the answer, each the contract of a function that does nothing.

ghost use Rattle.std.specs.Prelude.{◌≡◌, ◌≤◌, ℕ, List, length, Bool, Option, Some};
ghost use Rattle.vw_outside.specs.Shelf.{Rose};
ghost use Rattle.vw_rows.specs.Numbers.{IsBytes};
ghost use Rattle.vw_layout.specs.Layout.{IsModule, declared_functions};
ghost use Rattle.vw_state.specs.declared.tables.Tables.{Tables};
ghost use Rattle.vw_checks.specs.Modules.{AreSafe};
ghost use Rattle.vw_machine.specs.Module.{declared_module};
ghost use Rattle.vw_report.specs.Reports.{IsReport};
ghost use Rattle.vw_app.specs.declared.request.Command.{Command};
ghost use Rattle.vw_app.specs.Answer.{Answered, Asks, AsksCheck, AsksModule, AsksTest, Reply, ReadFailed, IsAccepted, IsAcceptedText};
ghost use Rattle.vw_app.specs.Selftest.{made_file, SelfTested};
ghost use Rattle.vw_app.specs.Check.{Checked, longest_report};
ghost use Rattle.vw_app.specs.Lines.{safe_line};

use vw_decode::one_spelling;
use vw_layout::functions_ascend;
use vw_report::{tables_have_one_text, texts_tell_tables};
use vw_state::{functions_have_sites, least_tables_are_one};

/// A command gives the bytes of a file at most one answer.
pub fn one_answer()
    ensures { (command : Command) (file : List ℕ) (status other : ℕ) (text other_text : List ℕ)
        → IsBytes file
        → Answered command file status text → Answered command file other other_text
        → (status ≡ other) × (text ≡ other_text) }
{
    least_tables_are_one();
    functions_have_sites();
    one_spelling();
    tables_have_one_text();
}

/// Where the words ask for a command and a file that the shelf tells, no call of the shelf failed, and the file is a
/// module that the command accepts, the answer has status 0 and the command's text for the module. So `run` answers
/// that, unless memory was refused or a write failed, which is counted.
pub fn accepted_files_are_answered()
    ensures { (words : List (List ℕ)) (told : List ℕ → Option (List ℕ))
        (before after : ℕ) (opened : Option (List ℕ)) (failed : Bool)
        (command : Command) (name file : List ℕ) (status : ℕ) (text : List ℕ)
        → Asks words command name → told name ≡ Some file → (Rose before after → ⊥)
        → IsModule file → IsAccepted command file
        → Reply words told (ReadFailed before after opened failed) status text
        → (status ≡ 0) × IsAcceptedText command file text }
{}

/// A module and the bytes of a report have at most one answer of `check`.
pub fn one_check()
    ensures { (file report : List ℕ) (status other : ℕ) (text other_text : List ℕ) → IsModule file
        → Checked (declared_module file) report status text
        → Checked (declared_module file) report other other_text
        → (status ≡ other) × (text ≡ other_text) }
{
    functions_ascend();
    texts_tell_tables();
}

/// Where the words ask for a check of a module and a report that the shelf tells, no call of the shelf failed, and the
/// report is no longer than one may be and the text of safe tables, the answer has status 0 and the line of a safe
/// module. So `run` answers that, unless memory was refused or a write failed, which is counted.
pub fn safe_reports_are_answered()
    ensures { (words : List (List ℕ)) (told : List ℕ → Option (List ℕ))
        (before after : ℕ) (opened : Option (List ℕ)) (failed : Bool)
        (name report file bytes : List ℕ) (tables : Tables) (status : ℕ) (text : List ℕ)
        → AsksCheck words name report → told name ≡ Some file → told report ≡ Some bytes
        → (Rose before after → ⊥) → IsModule file → length bytes ≤ longest_report
        → IsReport tables bytes → AreSafe (declared_module file) tables
        → Reply words told (ReadFailed before after opened failed) status text
        → (status ≡ 0) × (text ≡ safe_line (length (declared_functions file))) }
{
    texts_tell_tables();
}

/// Where the words ask for a module that is made from a number, its bytes are the answer, with status 0, or what the
/// test with it says.
pub fn made_modules_are_answered()
    ensures written { (words : List (List ℕ)) (told : List ℕ → Option (List ℕ))
        (before after : ℕ) (opened : Option (List ℕ)) (failed : Bool)
        (functions number status : ℕ) (text : List ℕ) → AsksModule words functions number
        → Reply words told (ReadFailed before after opened failed) status text
        → (status ≡ 0) × (text ≡ made_file functions number) }
    ensures tested { (words : List (List ℕ)) (told : List ℕ → Option (List ℕ))
        (before after : ℕ) (opened : Option (List ℕ)) (failed : Bool)
        (functions number status : ℕ) (text : List ℕ) → AsksTest words functions number
        → Reply words told (ReadFailed before after opened failed) status text
        → SelfTested functions number status text }
{}
