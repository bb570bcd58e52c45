ghost use Rattle.std.specs.Prelude.{◌≡◌, ◌≢◌, ℕ, ◌<◌, IfOk};
ghost use Rattle.vw_layout.specs.declared.functions.Function.{Function};
ghost use Rattle.vw_layout.specs.Layout.{IsWhole};
ghost use Rattle.vw_checks.specs.Modules.{IsNumbered};
ghost use Rattle.vw_sandbox.specs.Sandboxed.{IsSandboxedFile};
ghost use Rattle.vw_verdict.specs.Verdicts.{IsJudgement, IsPlaceOf, IsVerdict};
ghost use Rattle.vw_app.specs.Answer.{IsLeastReport, IsSafeLine, Judged};
ghost use Rattle.vw_app.specs.Check.{IsNameAt, IsPlaceLine};
ghost use Rattle.vw_app.specs.Lines.{unsafe_line};

use crate::lines::{safe_text, unsafe_text};
use crate::status::Status;
use std::alloc::Global;
use std::marker::Brand;
use std::sync::ledger::{Blank, Ledger};
use vw_bits::{OutOfMemory, Text};
use vw_layout::{Module, functions_ascend};
use vw_report::write_report;
use vw_rows::as_bytes;
use vw_sandbox::safe_tables_are_sandboxed;
use vw_solver::Steps;
use vw_state::{Place, Verdict};
use vw_verdict::{find_place, judge};

/// The status and the line of the verdict on a module.
pub fn verify(alloc: Global, loaded: &Module) -> Result<(Status, Text), OutOfMemory>
    requires { IsWhole loaded.now }
    ensures judged { IfOk result (λ reply.
        Judged loaded.now (IsSafeLine loaded.now) reply.0.0 reply.1) }
    ensures safe { IfOk result (λ reply. reply.0.0 ≡ 0 → IsSandboxedFile loaded.now.image.bytes) }
    ensures no_fault { IfOk result (λ reply. reply.0.0 ≢ 5) }
    ensures no_want { IfOk result (λ reply. reply.0.0 ≢ 6) }
{
    safe_tables_are_sandboxed();
    as_bytes(loaded.image.bytes());
    match place_of(alloc, loaded)? {
        None => {
            let text = safe_text(alloc, loaded.functions.as_slice().len())?;
            Ok((Status::DONE, text))
        }
        Some(place) => Ok((Status::UNSAFE, place_text(alloc, loaded, place)?)),
    }
}

/// The status and the text of the verdict on a module, where a safe module's text is the report of its least tables.
pub fn report(alloc: Global, loaded: &Module) -> Result<(Status, Text), OutOfMemory>
    requires { IsWhole loaded.now }
    ensures judged { IfOk result (λ reply.
        Judged loaded.now (IsLeastReport loaded.now) reply.0.0 reply.1) }
    ensures safe { IfOk result (λ reply. reply.0.0 ≡ 0 → IsSandboxedFile loaded.now.image.bytes) }
    ensures no_fault { IfOk result (λ reply. reply.0.0 ≢ 5) }
    ensures no_want { IfOk result (λ reply. reply.0.0 ≢ 6) }
{
    safe_tables_are_sandboxed();
    as_bytes(loaded.image.bytes());
    match verdict_of(alloc, loaded)? {
        Verdict::Safe(tables) => Ok((Status::DONE, write_report(alloc, &tables)?)),
        Verdict::Unsafe(place) => Ok((Status::UNSAFE, place_text(alloc, loaded, place)?)),
    }
}

// The place of a module that is not safe, and None where each function is.
fn place_of(alloc: Global, loaded: &Module) -> Result<Option<Place>, OutOfMemory>
    requires { IsWhole loaded.now }
    ensures { IfOk result (IsJudgement loaded.now) }
{
    place_from::<Brand>(alloc, loaded, Blank::new(1))
}

// The same, with a blank for the count of steps, which nobody reads.
fn place_from<L: Ledger>(
    alloc: Global,
    loaded: &Module,
    blank: Blank,
) -> Result<Option<Place>, OutOfMemory>
    requires whole { IsWhole loaded.now }
    requires name { blank.name ≡ L.name }
    requires parts { blank.parts ≡ L.parts }
    requires some { 0 < L.parts }
    ensures { IfOk result (IsJudgement loaded.now) }
{
    let mut steps: Steps<L> = Steps::from_blank(blank);
    find_place(alloc, loaded, &mut steps)
}

/// The verdict on a module, with its least tables where it is safe. OutOfMemory where the allocator refuses a request.
pub fn verdict_of(alloc: Global, loaded: &Module) -> Result<Verdict, OutOfMemory>
    requires { IsWhole loaded.now }
    ensures { IfOk result (IsVerdict loaded.now) }
{
    verdict_from::<Brand>(alloc, loaded, Blank::new(1))
}

// The same, with a blank for the count of steps, which nobody reads.
fn verdict_from<L: Ledger>(
    alloc: Global,
    loaded: &Module,
    blank: Blank,
) -> Result<Verdict, OutOfMemory>
    requires whole { IsWhole loaded.now }
    requires name { blank.name ≡ L.name }
    requires parts { blank.parts ≡ L.parts }
    requires some { 0 < L.parts }
    ensures { IfOk result (IsVerdict loaded.now) }
{
    let mut steps: Steps<L> = Steps::from_blank(blank);
    judge(alloc, loaded, &mut steps)
}

/// The line for a place of the module where a check fails.
pub fn place_text(alloc: Global, loaded: &Module, place: Place) -> Result<Text, OutOfMemory>
    requires { IsWhole loaded.now }
    ensures place { IfOk result (λ text. (fails : IsPlaceOf loaded.now place)
        → text ≡ unsafe_line fails.function.name place.at place.check) }
    ensures line { IfOk result (IsPlaceLine loaded.now place) }
{
    unsafe_text(alloc, name_at(loaded, place.entry), place.at, place.check)
}

// The name of the declared function that begins at an address, and `?` where none does.
fn name_at<'a>(loaded: &'a Module, entry: u64) -> &'a [u8]
    requires { IsWhole loaded.now }
    ensures numbered { (number : ℕ) (f : Function) → IsNumbered loaded.now number f
        → entry ≡ f.entry → result.now ≡ f.name }
    ensures name { IsNameAt loaded.now entry result.now }
{
    functions_ascend();
    match loaded.function_at(entry) {
        Some(number) => loaded.functions.as_slice()[number as usize].name.as_slice(),
        None => b"?",
    }
}
