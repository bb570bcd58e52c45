ghost use Rattle.std.specs.Prelude.{◌≡◌, ◌≢◌, ◌≤◌, ℕ, List, length, Some, IfOk, IfErr};
ghost use Rattle.vw_layout.specs.Layout.{IsWhole};
ghost use Rattle.vw_machine.specs.Module.{declared_module, module_of};
ghost use Rattle.vw_recheck.specs.Places.{EntriesAscend};
ghost use Rattle.vw_report.specs.Reports.{IsReport, IsRefused};
ghost use Rattle.vw_sandbox.specs.MapOf.{map_of};
ghost use Rattle.vw_sandbox.specs.Maps.{IsSandboxedBy};
ghost use Rattle.vw_app.specs.Answer.{AreTold, CheckAnswered, FileAnswered, ReportAnswered, ReadFailed};
ghost use Rattle.vw_app.specs.Check.{Checked, Rechecked, IsSandboxedByReport, longest_report};

use crate::limits::{LONGEST_FILE, LONGEST_REPORT};
use crate::lines::{bad_report_text, malformed_text, read_fault_text, safe_text};
use crate::status::Status;
use crate::verdict::place_text;
use std::alloc::Global;
use vw_bits::{List, OutOfMemory, Text};
use vw_layout::{Module, ModuleError};
use vw_outside::{ReadError, Shelf, read_all};
use vw_recheck::recheck;
use vw_report::{ReportError, read_report};
use vw_rows::as_bytes;
use vw_sandbox::safe_tables_are_sandboxed;
use vw_state::Tables;

/// The status and the text that answer `check` on the file and the report that the shelf has under these names. The
/// report is read where the file is a module. OutOfMemory where the allocator refuses a request.
pub fn check<F: Shelf>(
    alloc: Global,
    shelf: &mut F,
    name: &str,
    report: &str,
) -> Result<(Status, Text), OutOfMemory>
    ensures answered { IfOk result (λ reply. CheckAnswered (F.told shelf.old)
        (ReadFailed (F.faults shelf.old) (F.faults shelf.new) (F.opened shelf.new)
        (F.failed shelf.new)) name.now report.now reply.0.0 reply.1) }
    ensures safe { IfOk result (λ reply. reply.0.0 ≡ 0 → (file bytes : List ℕ)
        × AreTold (F.told shelf.old name.now) file × AreTold (F.told shelf.old report.now) bytes
        × IsSandboxedByReport file bytes) }
    ensures unread { IfOk result (λ reply. reply.0.0 ≡ 2 → F.opened shelf.new ≡ Some name.now) }
    ensures no_fault { IfOk result (λ reply. reply.0.0 ≢ 5) }
    ensures no_want { IfOk result (λ reply. reply.0.0 ≢ 6) }
{
    match read_all(alloc, shelf, name, LONGEST_FILE) {
        Ok(file) => check_file(alloc, shelf, file, report),
        Err(ReadError::Fault) => Ok((Status::READ_FAULT, read_fault_text(alloc)?)),
        Err(ReadError::TooLong) => {
            let text = malformed_text(alloc, 1, LONGEST_FILE)?;
            Ok((Status::MALFORMED, text))
        }
        Err(ReadError::Memory(OutOfMemory)) => Err(OutOfMemory),
    }
}

// The answer where these are the file's bytes.
fn check_file<F: Shelf>(
    alloc: Global,
    shelf: &mut F,
    file: List<u8>,
    report: &str,
) -> Result<(Status, Text), OutOfMemory>
    ensures answered { IfOk result (λ reply. FileAnswered file (F.told shelf.old report.now)
        (ReadFailed (F.faults shelf.old) (F.faults shelf.new) (F.opened shelf.new)
        (F.failed shelf.new) report.now) reply.0.0 reply.1) }
    ensures safe { IfOk result (λ reply. reply.0.0 ≡ 0 → (bytes : List ℕ)
        × AreTold (F.told shelf.old report.now) bytes × IsSandboxedByReport file bytes) }
    ensures unread { IfOk result (λ reply. reply.0.0 ≡ 2
        → F.opened shelf.new ≡ F.opened shelf.old) }
    ensures no_fault { IfOk result (λ reply. reply.0.0 ≢ 5) }
    ensures no_want { IfOk result (λ reply. reply.0.0 ≢ 6) }
{
    match Module::read(alloc, file) {
        Ok(module) => check_module(alloc, shelf, &module, report),
        Err(ModuleError::Malformed { rule, offset }) => {
            Ok((Status::MALFORMED, malformed_text(alloc, rule, offset)?))
        }
        Err(ModuleError::Memory(OutOfMemory)) => Err(OutOfMemory),
    }
}

// The answer where this is the file's module.
fn check_module<F: Shelf>(
    alloc: Global,
    shelf: &mut F,
    loaded: &Module,
    report: &str,
) -> Result<(Status, Text), OutOfMemory>
    requires { IsWhole loaded.now }
    ensures answered { IfOk result (λ reply. ReportAnswered loaded.now (F.told shelf.old report.now)
        (ReadFailed (F.faults shelf.old) (F.faults shelf.new) (F.opened shelf.new)
        (F.failed shelf.new) report.now) reply.0.0 reply.1) }
    ensures safe { IfOk result (λ reply. reply.0.0 ≡ 0 → (bytes : List ℕ)
        × AreTold (F.told shelf.old report.now) bytes
        × IsSandboxedByReport loaded.now.image.bytes bytes) }
    ensures no_rule { IfOk result (λ reply. reply.0.0 ≢ 2) }
    ensures no_fault { IfOk result (λ reply. reply.0.0 ≢ 5) }
    ensures no_want { IfOk result (λ reply. reply.0.0 ≢ 6) }
{
    match read_all(alloc, shelf, report, LONGEST_REPORT) {
        Ok(bytes) => check_report(alloc, loaded, bytes),
        Err(ReadError::Fault) => Ok((Status::READ_FAULT, read_fault_text(alloc)?)),
        Err(ReadError::TooLong) => Ok((Status::BAD_REPORT, bad_report_text(alloc, 0)?)),
        Err(ReadError::Memory(OutOfMemory)) => Err(OutOfMemory),
    }
}

// The answer where these are the report's bytes.
fn check_report(
    alloc: Global,
    loaded: &Module,
    report: List<u8>,
) -> Result<(Status, Text), OutOfMemory>
    requires whole { IsWhole loaded.now }
    requires within { length report ≤ longest_report }
    ensures checked { IfOk result (λ reply. Checked loaded.now report reply.0.0 reply.1) }
    ensures safe { IfOk result (λ reply. reply.0.0 ≡ 0
        → IsSandboxedByReport loaded.now.image.bytes report) }
    ensures no_rule { IfOk result (λ reply. reply.0.0 ≢ 2) }
    ensures no_fault { IfOk result (λ reply. reply.0.0 ≢ 5) }
    ensures no_want { IfOk result (λ reply. reply.0.0 ≢ 6) }
{
    match tables_of(alloc, report) {
        Ok(tables) => check_tables(alloc, loaded, &tables),
        Err(ReportError::Fault { line }) => {
            Ok((Status::BAD_REPORT, bad_report_text(alloc, line)?))
        }
        Err(ReportError::Memory(OutOfMemory)) => Err(OutOfMemory),
    }
}

// The tables of a report, whose bytes are let go.
fn tables_of(alloc: Global, report: List<u8>) -> Result<Tables, ReportError>
    ensures found { IfOk result (λ tables. IsReport tables report) }
    ensures refused { IfErr result (IsRefused report) }
{
    read_report(alloc, report.as_slice())
}

// The answer to tables.
fn check_tables(
    alloc: Global,
    loaded: &Module,
    tables: &Tables,
) -> Result<(Status, Text), OutOfMemory>
    requires whole { IsWhole loaded.now }
    requires ascend { EntriesAscend tables.now }
    ensures rechecked { IfOk result (λ reply. Rechecked loaded.now tables.now reply.0.0 reply.1) }
    ensures safe { IfOk result (λ reply. reply.0.0 ≡ 0
        → IsSandboxedBy (module_of loaded.now.image.bytes)
        (map_of (declared_module loaded.now.image.bytes) tables.now)) }
    ensures no_rule { IfOk result (λ reply. reply.0.0 ≢ 2) }
    ensures no_fault { IfOk result (λ reply. reply.0.0 ≢ 5) }
    ensures no_want { IfOk result (λ reply. reply.0.0 ≢ 6) }
{
    safe_tables_are_sandboxed();
    as_bytes(loaded.image.bytes());
    match recheck(alloc, loaded, tables)? {
        None => {
            let text = safe_text(alloc, loaded.functions.as_slice().len())?;
            Ok((Status::DONE, text))
        }
        Some(place) => Ok((Status::UNSAFE, place_text(alloc, loaded, place)?)),
    }
}
