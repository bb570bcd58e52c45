ghost use Rattle.std.specs.Prelude.{◌≡◌, ◌≢◌, ◌^◌, ◌<◌, ◌≤◌, IfOk};
ghost use Rattle.vw_layout.specs.Layout.{IsWhole};
ghost use Rattle.vw_checks.specs.Modules.{AreLeast, AreSafe};
ghost use Rattle.vw_report.specs.Reports.{AreFunctions};
ghost use Rattle.vw_sandbox.specs.Sandboxed.{IsSandboxedFile};
ghost use Rattle.vw_app.specs.Judged.{Judged};
ghost use Rattle.vw_app.specs.Selftest.{made_file, number_of_states, IsTestedLine, SelfTested};

use crate::lines::{malformed_text, selftest_text};
use crate::status::Status;
use crate::verdict::{place_text, verdict_of};
use std::alloc::Global;
use vw_bits::{OutOfMemory, Text};
use vw_image::segments_are_bounded;
use vw_layout::{Module, ModuleError, functions_are_code, functions_ascend};
use vw_make::make;
use vw_recheck::recheck;
use vw_report::{
    ReportError, least_tables_are_of_points, read_report, texts_tell_tables, write_report,
};
use vw_rows::as_bytes;
use vw_sandbox::safe_tables_are_sandboxed;
use vw_state::{FunctionTable, Tables, Verdict};

/// The status and the line of a test of the whole program: the module of so many functions, at most 65,536, that is
/// made from a number is read and judged, the report of its least tables is written and read back, and the tables that
/// were read are rechecked. A safe module's report always reads back, and its tables pass. So the status is 0 exactly
/// where the module is safe, else 1 with the place where a check fails; 2 would say that what was made is no module.
/// OutOfMemory where the allocator refuses a request.
pub fn selftest(alloc: Global, functions: u32, number: u64) -> Result<(Status, Text), OutOfMemory>
    requires { functions ≤ 65536 }
    ensures tested { IfOk result (λ reply. SelfTested functions number reply.0.0 reply.1) }
    ensures safe { IfOk result (λ reply.
        reply.0.0 ≡ 0 → IsSandboxedFile (made_file functions number)) }
    ensures no_fault { IfOk result (λ reply. reply.0.0 ≢ 5) }
    ensures no_want { IfOk result (λ reply. reply.0.0 ≢ 6) }
    ensures reads_back { IfOk result (λ reply. reply.0.0 ≢ 7) }
{
    let file = make(alloc, functions, number)?;
    match Module::read(alloc, file) {
        Ok(module) => test_module(alloc, &module),
        Err(ModuleError::Malformed { rule, offset }) => {
            Ok((Status::MALFORMED, malformed_text(alloc, rule, offset)?))
        }
        Err(ModuleError::Memory(OutOfMemory)) => Err(OutOfMemory),
    }
}

// The status and the line for a module that was read.
fn test_module(alloc: Global, loaded: &Module) -> Result<(Status, Text), OutOfMemory>
    requires { IsWhole loaded.now }
    ensures judged { IfOk result (λ reply.
        Judged loaded.now (IsTestedLine loaded.now) reply.0.0 reply.1) }
    ensures safe { IfOk result (λ reply. reply.0.0 ≡ 0 → IsSandboxedFile loaded.now.image.bytes) }
    ensures verdict { IfOk result (λ reply. reply.0.0 ≤ 1) }
{
    safe_tables_are_sandboxed();
    as_bytes(loaded.image.bytes());
    match verdict_of(alloc, loaded)? {
        Verdict::Safe(tables) => {
            let states = rechecked_states(alloc, loaded, &tables)?;
            let functions = loaded.functions.as_slice().len();
            Ok((Status::DONE, selftest_text(alloc, functions, states)?))
        }
        Verdict::Unsafe(place) => Ok((Status::UNSAFE, place_text(alloc, loaded, place)?)),
    }
}

// How many states stand in the least tables of a safe module, once their report was read back and rechecked.
fn rechecked_states(alloc: Global, loaded: &Module, tables: &Tables) -> Result<u64, OutOfMemory>
    requires whole { IsWhole loaded.now }
    requires least { AreLeast loaded.now tables.now }
    requires safe { AreSafe loaded.now tables.now }
    ensures { IfOk result (λ states. states ≡ number_of_states tables.now.functions) }
{
    least_tables_are_of_functions(loaded, tables);
    let read = read_back(alloc, tables)?;
    match recheck(alloc, loaded, &read)? {
        None => Ok(count_states(read.functions.as_slice())),
        Some(_) => unreachable!(),
    }
}

// The tables that the report of these tables is read to: the same.
fn read_back(alloc: Global, tables: &Tables) -> Result<Tables, OutOfMemory>
    requires { AreFunctions 0 tables.now.functions }
    ensures { IfOk result (λ read. read ≡ tables.now) }
{
    texts_tell_tables();
    let report = write_report(alloc, tables)?;
    match read_report(alloc, report.as_slice()) {
        Ok(read) => Ok(read),
        Err(ReportError::Memory(refused)) => Err(refused),
        Err(ReportError::Fault { .. }) => unreachable!(),
    }
}

// The least tables of a module are such as a report may hold, and have a number of states that fits. Takes no memory.
fn least_tables_are_of_functions(loaded: &Module, tables: &Tables)
    requires whole { IsWhole loaded.now }
    requires least { AreLeast loaded.now tables.now }
    ensures functions { AreFunctions 0 tables.now.functions }
    ensures few { number_of_states tables.now.functions < 2 ^ 64 }
{
    functions_ascend();
    functions_are_code();
    segments_are_bounded();
    least_tables_are_of_points();
}

// How many points these tables give a state.
fn count_states(tables: &[FunctionTable]) -> u64
    requires { number_of_states tables.now < 2 ^ 64 }
    ensures { result ≡ number_of_states tables.now }
{
    let mut states = 0;
    for table in tables {
        states += table.states.as_slice().len() as u64;
    }
    states
}
