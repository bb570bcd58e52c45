ghost use Rattle.std.specs.Prelude.{◌≡◌, ◌≢◌, ℕ, List, map, string_bytes, Some, IfOk};
ghost use Rattle.vw_layout.specs.Layout.{IsModule};
ghost use Rattle.vw_outside.specs.Shelf.{Rose};
ghost use Rattle.vw_outside.specs.Sink.{Appended, AppendedFront};
ghost use Rattle.vw_sandbox.specs.Sandboxed.{IsSandboxedFile};
ghost use Rattle.vw_machine.specs.Module.{declared_module};
ghost use Rattle.vw_app.specs.Check.{Checked, IsSandboxedByReport};
ghost use Rattle.vw_app.specs.Selftest.{made_file};
ghost use Rattle.vw_app.specs.Answer.{Answered, AreTold, Asks, AsksCheck, AsksTest, Done, IsForm, Judges, Reply, ReadFailed, WithoutFile};

use crate::check::check;
use crate::info::info_text;
use crate::limits::LONGEST_FILE;
use crate::lines::{READ_FAULT, malformed_text};
use crate::listing::listing_text;
use crate::request::{Command, numbers_behind, report_of, request_of};
use crate::selftest::selftest;
use crate::status::Status;
use crate::verdict::{report, verify};
use std::alloc::Global;
use vw_bits::{List, OutOfMemory, Text};
use vw_layout::{Module, ModuleError};
use vw_make::make;
use vw_outside::{ReadError, Shelf, Sink, read_all, write_all_of};

const USAGE: &[u8] =
    b"usage: vw verify FILE | report FILE | check FILE REPORT | list FILE | info FILE | trace FILE FUNCTION STEPS NUMBER | make FUNCTIONS NUMBER | selftest FUNCTIONS NUMBER\n";

/// Does all that `vw` does: reads the words after the program's name, the files that they name on the shelf, where they
/// name any, and writes the answer to the sink. The statuses are those of `Status`.
pub fn run<F: Shelf, K: Sink>(
    alloc: Global,
    words: &[String],
    shelf: &mut F,
    sink: &mut K,
) -> Status
    // The status is that of the defined answer to the words and the file, and its text is written.
    ensures replied { result.0 ≢ 5 → result.0 ≢ 6
        → (text : List ℕ) × Appended (K.written sink.old) (K.written sink.new) text
        × Reply (map string_bytes words.now) (F.told shelf.old)
        (ReadFailed (F.faults shelf.old) (F.faults shelf.new) (F.opened shelf.new)
        (F.failed shelf.new))
        result.0 text }

    // Where the verdict is safe, by `verify` or by `report`, the file is a module whose least tables are safe, and
    // every run of every function in every instance stays in its sandbox and keeps to these tables.
    ensures safe { (command : Command) (name : List ℕ) → Judges command
        → Asks (map string_bytes words.now) command name → result.0 ≡ 0
        → (file : List ℕ) × AreTold (F.told shelf.old name) file × IsSandboxedFile file }

    // On a module the answer is the command's: the verdict of `verify` and `report` is safe exactly where every
    // function has a safe table, and otherwise it is unsafe, with the module's place.
    ensures exact { (command : Command) (name file : List ℕ)
        → Asks (map string_bytes words.now) command name
        → F.told shelf.old name ≡ Some file → IsModule file
        → result.0 ≢ 4 → result.0 ≢ 5 → result.0 ≢ 6
        → (text : List ℕ) × Appended (K.written sink.old) (K.written sink.new) text
        × Done command file result.0 text }

    // Where `check` answers safe, the file is a module and the report is the text of safe tables, and every run of
    // every function in every instance stays in its sandbox and keeps to the report's tables.
    ensures safe_report { (name report : List ℕ)
        → AsksCheck (map string_bytes words.now) name report
        → result.0 ≡ 0 → (file bytes : List ℕ) × AreTold (F.told shelf.old name) file
        × AreTold (F.told shelf.old report) bytes × IsSandboxedByReport file bytes }

    // On a module and a report that is told, the answer is that of `check`: 7 exactly where the report is longer than
    // one may be or no report's text, 0 exactly where its tables are safe, and else 1, with the lowest place at which
    // they are not.
    ensures exact_report { (name report file bytes : List ℕ)
        → AsksCheck (map string_bytes words.now) name report
        → F.told shelf.old name ≡ Some file → F.told shelf.old report ≡ Some bytes → IsModule file
        → result.0 ≢ 4 → result.0 ≢ 5 → result.0 ≢ 6
        → (text : List ℕ) × Appended (K.written sink.old) (K.written sink.new) text
        × Checked (declared_module file) bytes result.0 text }

    // Where `selftest` answers that the module which is made is safe, every run of every function of it stays in its
    // sandbox and keeps to its least tables.
    ensures safe_test { (functions number : ℕ)
        → AsksTest (map string_bytes words.now) functions number
        → result.0 ≡ 0 → IsSandboxedFile (made_file functions number) }

    // Where the file is no module, the report is not opened.
    ensures unread { (name report : List ℕ) → AsksCheck (map string_bytes words.now) name report
        → result.0 ≡ 2 → F.opened shelf.new ≡ Some name }

    // A write failed: a front part of the text of the status that is replaced was written.
    ensures write_fault { result.0 ≡ 5
        → Rose (K.faults sink.old) (K.faults sink.new)
        × (status : ℕ) × (text : List ℕ)
        × AppendedFront (K.written sink.old) (K.written sink.new) text
        × Reply (map string_bytes words.now) (F.told shelf.old)
        (ReadFailed (F.faults shelf.old) (F.faults shelf.new) (F.opened shelf.new)
        (F.failed shelf.new))
        status text }

    // Memory was refused before the text was composed.
    ensures memory { result.0 ≡ 6 → (sink.new ≡ sink.old) × IsForm (map string_bytes words.now) }
{
    let Some((command, name)) = request_of(words) else {
        return with_report(alloc, words, shelf, sink);
    };
    match read_all(alloc, shelf, name, LONGEST_FILE) {
        Ok(file) => match answer(alloc, command, file) {
            Ok((status, text)) => finish(sink, status, text.as_slice()),
            Err(OutOfMemory) => Status::OUT_OF_MEMORY,
        },
        Err(ReadError::Fault) => finish(sink, Status::READ_FAULT, READ_FAULT),
        Err(ReadError::TooLong) => match malformed_text(alloc, 1, LONGEST_FILE) {
            Ok(text) => finish(sink, Status::MALFORMED, text.as_slice()),
            Err(OutOfMemory) => Status::OUT_OF_MEMORY,
        },
        Err(ReadError::Memory(OutOfMemory)) => Status::OUT_OF_MEMORY,
    }
}

// Writes the answer of `check`, where the words ask for it, and else the answer to words without a file.
fn with_report<F: Shelf, K: Sink>(
    alloc: Global,
    words: &[String],
    shelf: &mut F,
    sink: &mut K,
) -> Status
    requires { (command : Command) (name : List ℕ)
        → Asks (map string_bytes words.now) command name → ⊥ }
    ensures replied { result.0 ≢ 5 → result.0 ≢ 6
        → (text : List ℕ) × Appended (K.written sink.old) (K.written sink.new) text
        × Reply (map string_bytes words.now) (F.told shelf.old)
        (ReadFailed (F.faults shelf.old) (F.faults shelf.new) (F.opened shelf.new)
        (F.failed shelf.new))
        result.0 text }
    ensures safe_report { (name report : List ℕ)
        → AsksCheck (map string_bytes words.now) name report
        → result.0 ≡ 0 → (file bytes : List ℕ) × AreTold (F.told shelf.old name) file
        × AreTold (F.told shelf.old report) bytes × IsSandboxedByReport file bytes }
    ensures safe_test { (functions number : ℕ)
        → AsksTest (map string_bytes words.now) functions number
        → result.0 ≡ 0 → IsSandboxedFile (made_file functions number) }
    ensures unread { (name report : List ℕ) → AsksCheck (map string_bytes words.now) name report
        → result.0 ≡ 2 → F.opened shelf.new ≡ Some name }
    ensures write_fault { result.0 ≡ 5
        → Rose (K.faults sink.old) (K.faults sink.new)
        × (status : ℕ) × (text : List ℕ)
        × AppendedFront (K.written sink.old) (K.written sink.new) text
        × Reply (map string_bytes words.now) (F.told shelf.old)
        (ReadFailed (F.faults shelf.old) (F.faults shelf.new) (F.opened shelf.new)
        (F.failed shelf.new))
        status text }
    ensures memory { result.0 ≡ 6 → (sink.new ≡ sink.old) × IsForm (map string_bytes words.now) }
{
    let Some((name, report)) = report_of(words) else {
        return with_test(alloc, words, sink);
    };
    match check(alloc, shelf, name, report) {
        Ok((status, text)) => finish(sink, status, text.as_slice()),
        Err(OutOfMemory) => Status::OUT_OF_MEMORY,
    }
}

// Writes what the test says for which the words ask, and else the answer to words that name no module to be tested.
fn with_test<K: Sink>(alloc: Global, words: &[String], sink: &mut K) -> Status
    requires file { (command : Command) (name : List ℕ)
        → Asks (map string_bytes words.now) command name → ⊥ }
    requires report { (name report : List ℕ)
        → AsksCheck (map string_bytes words.now) name report → ⊥ }
    ensures replied { result.0 ≢ 5 → result.0 ≢ 6
        → (text : List ℕ) × Appended (K.written sink.old) (K.written sink.new) text
        × WithoutFile (map string_bytes words.now) result.0 text }
    ensures safe_test { (functions number : ℕ)
        → AsksTest (map string_bytes words.now) functions number
        → result.0 ≡ 0 → IsSandboxedFile (made_file functions number) }
    ensures write_fault { result.0 ≡ 5
        → Rose (K.faults sink.old) (K.faults sink.new)
        × (status : ℕ) × (text : List ℕ)
        × AppendedFront (K.written sink.old) (K.written sink.new) text
        × WithoutFile (map string_bytes words.now) status text }
    ensures memory { result.0 ≡ 6 → (sink.new ≡ sink.old) × IsForm (map string_bytes words.now) }
{
    let Some((functions, number)) = numbers_behind(words, "selftest") else {
        return without_file(alloc, words, sink);
    };
    match selftest(alloc, functions, number) {
        Ok((status, text)) => finish(sink, status, text.as_slice()),
        Err(OutOfMemory) => Status::OUT_OF_MEMORY,
    }
}

// Writes the module that the words ask for, or the usage line.
fn without_file<K: Sink>(alloc: Global, words: &[String], sink: &mut K) -> Status
    requires file { (command : Command) (name : List ℕ)
        → Asks (map string_bytes words.now) command name → ⊥ }
    requires report { (name report : List ℕ)
        → AsksCheck (map string_bytes words.now) name report → ⊥ }
    requires test { (functions number : ℕ)
        → AsksTest (map string_bytes words.now) functions number → ⊥ }
    ensures replied { result.0 ≢ 5 → result.0 ≢ 6
        → (text : List ℕ) × Appended (K.written sink.old) (K.written sink.new) text
        × WithoutFile (map string_bytes words.now) result.0 text }
    ensures write_fault { result.0 ≡ 5
        → Rose (K.faults sink.old) (K.faults sink.new)
        × (status : ℕ) × (text : List ℕ)
        × AppendedFront (K.written sink.old) (K.written sink.new) text
        × WithoutFile (map string_bytes words.now) status text }
    ensures memory { result.0 ≡ 6 → (sink.new ≡ sink.old) × IsForm (map string_bytes words.now) }
{
    match numbers_behind(words, "make") {
        Some((functions, number)) => match make(alloc, functions, number) {
            Ok(file) => finish(sink, Status::DONE, file.as_slice()),
            Err(OutOfMemory) => Status::OUT_OF_MEMORY,
        },
        None => finish(sink, Status::USAGE, USAGE),
    }
}

// The status and the text that a command gives for the bytes of its file.
fn answer(alloc: Global, command: Command, file: List<u8>) -> Result<(Status, Text), OutOfMemory>
    ensures answered { IfOk result (λ reply. Answered command file reply.0.0 reply.1) }
    ensures safe { IfOk result (λ reply. Judges command → reply.0.0 ≡ 0 → IsSandboxedFile file) }
    ensures no_fault { IfOk result (λ reply. reply.0.0 ≢ 5) }
    ensures no_want { IfOk result (λ reply. reply.0.0 ≢ 6) }
{
    match Module::read(alloc, file) {
        Ok(module) => match command {
            Command::Verify => verify(alloc, &module),
            Command::Report => report(alloc, &module),
            Command::List => Ok((Status::DONE, listing_text(alloc, &module)?)),
            Command::Info => Ok((Status::DONE, info_text(alloc, &module)?)),
        },
        Err(ModuleError::Malformed { rule, offset }) => {
            Ok((Status::MALFORMED, malformed_text(alloc, rule, offset)?))
        }
        Err(ModuleError::Memory(OutOfMemory)) => Err(OutOfMemory),
    }
}

// Writes the text and answers its status, or that the write failed.
fn finish<K: Sink>(sink: &mut K, status: Status, text: &[u8]) -> Status
    requires { status.0 ≢ 5 }
    ensures done { result.0 ≢ 5 → (result ≡ status)
        × Appended (K.written sink.old) (K.written sink.new) text.now }
    ensures failed { result.0 ≡ 5 → Rose (K.faults sink.old) (K.faults sink.new)
        × AppendedFront (K.written sink.old) (K.written sink.new) text.now }
{
    match write_all_of(sink, text) {
        Ok(()) => status,
        Err(_) => Status::WRITE_FAULT,
    }
}
