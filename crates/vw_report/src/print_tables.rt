ghost use Rattle.std.specs.Prelude.{◌≡◌, ◌++◌, List, ℕ, IfOk, OnOk};
ghost use Rattle.std.specs.List.{flat_map};
ghost use Rattle.vw_report.specs.Lines.{entry_line};
ghost use Rattle.vw_report.specs.ReportText.{AppendsFunctions, AppendsPoint, AppendsPoints, IsTextOf};

use crate::print_states::push_state;
use crate::print_values::push_word;
use std::alloc::Global;
use vw_bits::{OutOfMemory, Text};
use vw_state::{FunctionTable, PointState, Tables};

// Appends the line of a point.
fn push_point(text: &mut Text, point: &PointState) -> Result<(), OutOfMemory>
    ensures { OnOk result (AppendsPoint point.now text.old text.new) }
{
    let parts = point.state.parts()?;
    text.push(b"at ")?;
    text.hex(point.at as u64, 8)?;
    push_state(text, &parts)?;
    text.push(b"\n")
}

fn push_points(text: &mut Text, points: &[PointState]) -> Result<(), OutOfMemory>
    ensures { OnOk result (AppendsPoints points.now text.old text.new) }
{
    for point in points {
        push_point(text, point)?;
    }
    Ok(())
}

// Appends the line of a function.
fn push_entry(text: &mut Text, entry: u64) -> Result<(), OutOfMemory>
    ensures { OnOk result (text.new ≡ text.old ++ entry_line entry) }
{
    text.push(b"function ")?;
    push_word(text, entry)?;
    text.push(b"\n")
}

fn push_functions(text: &mut Text, functions: &[FunctionTable]) -> Result<(), OutOfMemory>
    ensures { OnOk result (AppendsFunctions functions.now text.old text.new) }
{
    for function in functions {
        push_entry(text, function.entry)?;
        push_points(text, function.states.as_slice())?;
    }
    Ok(())
}

/// The report of tables: a first line, which names the format; for each function a line with its entry, and for each of
/// its points a line with the offset and what the state there is; and a last line.
pub fn write_report(alloc: Global, tables: &Tables) -> Result<Text, OutOfMemory>
    ensures { IfOk result (IsTextOf tables.now) }
{
    let mut text = Text::new(alloc);
    text.push(b"veriwasm report 1\n")?;
    push_functions(&mut text, tables.functions.as_slice())?;
    text.push(b"end\n")?;
    Ok(text)
}
