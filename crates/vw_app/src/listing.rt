ghost use Rattle.std.specs.Prelude.{◌≡◌, ◌++◌, ◌+◌, ◌^◌, ◌<◌, ◌≤◌, length, take, drop, Some, IfOk, OnOk};
ghost use Rattle.std.specs.List.{flat_map, slice_get};
ghost use Rattle.vw_insn.specs.Listed.{IsListed};
ghost use Rattle.vw_layout.specs.declared.functions.Function.{Function};
ghost use Rattle.vw_layout.specs.Layout.{IsWhole};
ghost use Rattle.vw_graph.specs.Rounds.{last_table};
ghost use Rattle.vw_state.specs.Context.{context_of};
ghost use Rattle.vw_app.specs.Listing.{IsListing, IsFunctionListing, IsPointLine, AreTexts, Appends, offset_text, byte_text, name_line, instruction_line, empty_line};

use crate::lines::push_name;
use std::alloc::Global;
use std::marker::Brand;
use std::sync::ledger::{Blank, Ledger};
use vw_bits::{OutOfMemory, Text};
use vw_graph::{Rounds, rounds};
use vw_insn::{Insn, text as push_insn};
use vw_layout::{Module, functions_ascend};
use vw_solver::Steps;
use vw_state::{FunctionTable, PointState, code_of, instruction_at};

/// The code of each function of a module: its name, and a line for each point of its least table, which are the points
/// to which control can come as far as the analysis knows. One table is held at a time. OutOfMemory where the allocator
/// refuses a request.
pub fn listing_text(alloc: Global, loaded: &Module) -> Result<Text, OutOfMemory>
    requires { IsWhole loaded.now }
    ensures { IfOk result (IsListing loaded.now) }
{
    listing_from::<Brand>(alloc, loaded, Blank::new(1))
}

// The same, with a blank for the count of steps, which nobody reads.
fn listing_from<L: Ledger>(
    alloc: Global,
    loaded: &Module,
    blank: Blank,
) -> Result<Text, OutOfMemory>
    requires whole { IsWhole loaded.now }
    requires name { blank.name ≡ L.name }
    requires parts { blank.parts ≡ L.parts }
    requires some { 0 < L.parts }
    ensures { IfOk result (IsListing loaded.now) }
{
    functions_ascend();
    let mut steps: Steps<L> = Steps::from_blank(blank);
    let mut text = Text::new(alloc);
    let functions = loaded.functions.as_slice();
    let mut number = 0;
    while number < functions.len() {
        push_function(alloc, loaded, number as u32, &mut text, &mut steps)?;
        number += 1;
    }
    Ok(text)
}

// Appends the code of a function, given by its number.
fn push_function<L: Ledger>(
    alloc: Global,
    loaded: &Module,
    number: u32,
    text: &mut Text,
    steps: &mut Steps<L>,
) -> Result<(), OutOfMemory>
    requires whole { IsWhole loaded.now }
    requires declared { number < length loaded.now.functions }
    ensures { (f : Function) → slice_get loaded.now.functions number ≡ Some f → OnOk result
        (Appends (IsFunctionListing (context_of loaded.now f) f.name) text.old text.new) }
{
    let table = last_table(rounds(alloc, loaded, number, steps)?);
    let function = &loaded.functions.as_slice()[number as usize];
    let code = code_of(&loaded.image, function.entry, function.size);
    push_name_line(text, function.name.as_slice())?;
    push_points(alloc, text, code, table.states.as_slice())
}

/// The table of the last round.
pub fn last_table(rounds: Rounds) -> FunctionTable
    ensures { result ≡ last_table rounds }
{
    match rounds {
        Rounds::Stable(table) => table,
        Rounds::Stopped { table, .. } => table,
    }
}

fn push_name_line(text: &mut Text, name: &[u8]) -> Result<(), OutOfMemory>
    ensures { OnOk result (text.new ≡ text.old ++ name_line name.now) }
{
    text.push(b"function ")?;
    push_name(text, name)?;
    text.push(b"\n")
}

// Appends a line for each of these points of the code.
fn push_points(
    alloc: Global,
    text: &mut Text,
    code: &[u8],
    states: &[PointState],
) -> Result<(), OutOfMemory>
    requires { length code.now < 2 ^ 32 }
    ensures { OnOk result
        (Appends (AreTexts (λ p. IsPointLine code.now p.at) states.now) text.old text.new) }
{
    for point in states {
        push_point(alloc, text, code, point.at)?;
    }
    Ok(())
}

// Appends the line of a point of the code.
fn push_point(alloc: Global, text: &mut Text, code: &[u8], at: u32) -> Result<(), OutOfMemory>
    requires { length code.now < 2 ^ 32 }
    ensures { OnOk result (Appends (IsPointLine code.now at) text.old text.new) }
{
    match instruction_at(code, at) {
        Some((insn, len)) => push_instruction(alloc, text, at, part(code, at, len), &insn),
        None => push_empty(text, at),
    }
}

// So many bytes from a point on.
fn part(code: &[u8], at: u32, len: u32) -> &[u8]
    requires { at + len ≤ length code.now }
    ensures { result.now ≡ take len (drop at code.now) }
{
    &code[at as usize..at as usize + len as usize]
}

fn push_offset(text: &mut Text, at: u32) -> Result<(), OutOfMemory>
    ensures { OnOk result (text.new ≡ text.old ++ offset_text at) }
{
    text.push(b"+0x")?;
    text.hex(at as u64, 1)
}

fn push_empty(text: &mut Text, at: u32) -> Result<(), OutOfMemory>
    ensures { OnOk result (text.new ≡ text.old ++ empty_line at) }
{
    push_offset(text, at)?;
    text.push(b" ?\n")
}

// Appends the line of an instruction that stands at a point and has these bytes.
fn push_instruction(
    alloc: Global,
    text: &mut Text,
    at: u32,
    bytes: &[u8],
    insn: &Insn,
) -> Result<(), OutOfMemory>
    requires near { at + length bytes.now < 2 ^ 32 }
    requires listed { IsListed insn.now }
    ensures { OnOk result (text.new ≡ text.old ++ instruction_line at bytes.now insn.now) }
{
    push_offset(text, at)?;
    text.push(b" ")?;
    push_bytes(text, bytes)?;
    text.push(b" ")?;
    push_insn(alloc, insn, at + bytes.len() as u32, text)?;
    text.push(b"\n")
}

// Appends bytes in two digits each.
fn push_bytes(text: &mut Text, bytes: &[u8]) -> Result<(), OutOfMemory>
    ensures { OnOk result (text.new ≡ text.old ++ flat_map byte_text bytes.now) }
{
    for byte in bytes {
        text.hex(*byte as u64, 2)?;
    }
    Ok(())
}
