ghost use Rattle.std.specs.Prelude.{◌≡◌, ◌++◌, IfOk, OnOk};
ghost use Rattle.vw_app.specs.Lines.{line, name_byte, name_text, safe_line, selftest_line, unsafe_line, check_text, check_word, malformed_line, read_fault_line, bad_report_line, count_line};

use std::alloc::Global;
use vw_bits::{OutOfMemory, Text};

/// The line for a file that was not read.
pub const READ_FAULT: &[u8] = b"read fault\n";

/// The line for a module whose functions are all safe, of which there are so many.
pub fn safe_text(alloc: Global, functions: usize) -> Result<Text, OutOfMemory>
    ensures { IfOk result (λ text. text ≡ safe_line functions) }
{
    count_text(alloc, b"safe, functions ", functions as u64)
}

/// The line for a module that was made, judged safe and rechecked, which has so many functions, and so many states in
/// its least tables.
pub fn selftest_text(alloc: Global, functions: usize, states: u64) -> Result<Text, OutOfMemory>
    ensures { IfOk result (λ text. text ≡ selftest_line functions states) }
{
    let mut text = Text::new(alloc);
    text.push(b"selftest, functions ")?;
    text.dec(functions as u64)?;
    text.push(b", instructions ")?;
    text.dec(states)?;
    text.push(b", safe, rechecked")?;
    text.push(b"\n")?;
    Ok(text)
}

/// The line for a check, by its number, that fails at an offset of the function of this name.
pub fn unsafe_text(alloc: Global, name: &[u8], at: u32, check: u8) -> Result<Text, OutOfMemory>
    ensures { IfOk result (λ text. text ≡ unsafe_line name.now at check) }
{
    let mut text = Text::new(alloc);
    text.push(b"unsafe, ")?;
    push_name(&mut text, name)?;
    text.push(b"+0x")?;
    text.hex(at as u64, 1)?;
    text.push(b", ")?;
    push_check(&mut text, check)?;
    text.push(b"\n")?;
    Ok(text)
}

// Appends a check, by its number from 0 to 8: the number and its word.
fn push_check(text: &mut Text, check: u8) -> Result<(), OutOfMemory>
    ensures { OnOk result (text.new ≡ text.old ++ check_text check) }
{
    text.push(b"C")?;
    text.dec(check as u64)?;
    text.push(b" ")?;
    text.push(check_word(check))
}

// The word of a check, by its number from 0 to 8; 0 is that tables are a solution.
fn check_word(check: u8) -> &'static [u8]
    ensures { result.now ≡ check_word check }
{
    match check {
        0 => b"table",
        1 => b"code",
        2 => b"jump",
        3 => b"depth",
        4 => b"address",
        5 => b"read only",
        6 => b"local",
        7 => b"call",
        _ => b"return",
    }
}

/// The line for a file of which this rule is the first that breaks, with the offset that it names.
pub fn malformed_text(alloc: Global, rule: u8, offset: u64) -> Result<Text, OutOfMemory>
    ensures { IfOk result (λ text. text ≡ malformed_line rule offset) }
{
    let mut text = Text::new(alloc);
    text.push(b"malformed, rule ")?;
    text.dec(rule as u64)?;
    text.push(b" at ")?;
    text.dec(offset)?;
    text.push(b"\n")?;
    Ok(text)
}

/// The line for a file that was not read.
pub fn read_fault_text(alloc: Global) -> Result<Text, OutOfMemory>
    ensures { IfOk result (λ text. text ≡ read_fault_line) }
{
    let mut text = Text::new(alloc);
    text.push(READ_FAULT)?;
    Ok(text)
}

/// The line for a report that is not read, with its first line in error, counted from 1, or 0 where the report is too
/// long.
pub fn bad_report_text(alloc: Global, line: u64) -> Result<Text, OutOfMemory>
    ensures { IfOk result (λ text. text ≡ bad_report_line line) }
{
    count_text(alloc, b"bad report, line ", line)
}

// A line of what is counted and the count.
fn count_text(alloc: Global, what: &[u8], count: u64) -> Result<Text, OutOfMemory>
    ensures { IfOk result (λ text. text ≡ count_line what.now count) }
{
    let mut text = Text::new(alloc);
    push_count(&mut text, what, count)?;
    Ok(text)
}

/// Appends a line of what is counted and the count.
pub fn push_count(text: &mut Text, what: &[u8], count: u64) -> Result<(), OutOfMemory>
    ensures { OnOk result (text.new ≡ text.old ++ count_line what.now count) }
{
    text.push(what)?;
    text.dec(count)?;
    text.push(b"\n")
}

/// Appends a name: visible ASCII characters other than the backslash as they are, and each other byte as `\x` and two
/// hexadecimal digits.
pub fn push_name(text: &mut Text, name: &[u8]) -> Result<(), OutOfMemory>
    ensures { OnOk result (text.new ≡ text.old ++ name_text name.now) }
{
    for byte in name {
        push_name_byte(text, *byte)?;
    }
    Ok(())
}

fn push_name_byte(text: &mut Text, byte: u8) -> Result<(), OutOfMemory>
    ensures { OnOk result (text.new ≡ text.old ++ name_byte byte) }
{
    if (33..=126).contains(&byte) && byte != b'\\' {
        text.push(&[byte])
    } else {
        text.push(b"\\x")?;
        text.hex(byte as u64, 2)
    }
}
