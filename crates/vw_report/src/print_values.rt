ghost use Rattle.std.specs.Prelude.{◌≡◌, ◌++◌, OnOk};
ghost use Rattle.vw_report.specs.ValueText.{jump_text, mark_text, place_text, register_text, signed_text, tagged_text, value_text, via_text, word_text};

use vw_bits::{OutOfMemory, Text};
use vw_names::Spot;
use vw_values::{Value, Via};

// The name of register 0 to 15.
pub fn register_name(register: u8) -> &'static [u8]
    ensures { result.now ≡ register_text register }
{
    match register {
        0 => b"rax",
        1 => b"rcx",
        2 => b"rdx",
        3 => b"rbx",
        4 => b"rsp",
        5 => b"rbp",
        6 => b"rsi",
        7 => b"rdi",
        8 => b"r8",
        9 => b"r9",
        10 => b"r10",
        11 => b"r11",
        12 => b"r12",
        13 => b"r13",
        14 => b"r14",
        _ => b"r15",
    }
}

// Appends a number with its sign.
pub fn push_signed(text: &mut Text, number: i64) -> Result<(), OutOfMemory>
    ensures { OnOk result (text.new ≡ text.old ++ signed_text number) }
{
    if number < 0 {
        text.push(b"-")?;
        text.dec(number.unsigned_abs())
    } else {
        text.push(b"+")?;
        text.dec(number.unsigned_abs())
    }
}

// Appends a word in sixteen hexadecimal digits.
pub fn push_word(text: &mut Text, word: u64) -> Result<(), OutOfMemory>
    ensures { OnOk result (text.new ≡ text.old ++ word_text word) }
{
    text.hex(word, 16)
}

fn push_via(text: &mut Text, via: Via) -> Result<(), OutOfMemory>
    ensures { OnOk result (text.new ≡ text.old ++ via_text via) }
{
    match via {
        Via::At(register) => {
            text.push(b"at:")?;
            text.push(register_name(register))
        }
        Via::Idx(register) => {
            text.push(b"idx:")?;
            text.push(register_name(register))
        }
    }
}

// Appends a table's number and a tag.
fn push_tagged(text: &mut Text, table: u32, tag: u64) -> Result<(), OutOfMemory>
    ensures { OnOk result (text.new ≡ text.old ++ tagged_text table tag) }
{
    text.dec(table as u64)?;
    text.push(b":")?;
    text.dec(tag)
}

// Appends the mark of an index, where it has one.
fn push_mark(text: &mut Text, mark: Option<(u32, u64)>) -> Result<(), OutOfMemory>
    ensures { OnOk result (text.new ≡ text.old ++ mark_text mark) }
{
    match mark {
        None => Ok(()),
        Some((table, tag)) => {
            text.push(b":")?;
            push_tagged(text, table, tag)
        }
    }
}

// Appends an address and a number of entries.
fn push_jump(text: &mut Text, a: u64, k: u64) -> Result<(), OutOfMemory>
    ensures { OnOk result (text.new ≡ text.old ++ jump_text a k) }
{
    push_word(text, a)?;
    text.push(b":")?;
    text.dec(k)
}

// Appends a value.
pub fn push_value(text: &mut Text, value: Value) -> Result<(), OutOfMemory>
    ensures { OnOk result (text.new ≡ text.old ++ value_text value) }
{
    match value {
        Value::Any => text.push(b"any"),
        Value::Num => text.push(b"num"),
        Value::Const(c) => {
            text.push(b"const:")?;
            push_word(text, c)
        }
        Value::Below(k) => {
            text.push(b"below:")?;
            text.dec(k)
        }
        Value::Low(k) => {
            text.push(b"low:")?;
            text.dec(k)
        }
        Value::Both(k) => {
            text.push(b"both:")?;
            text.dec(k)
        }
        Value::HeapBase => text.push(b"heapbase"),
        Value::HeapAddr => text.push(b"heapaddr"),
        Value::Globals => text.push(b"globals"),
        Value::Entry(register) => {
            text.push(b"entry:")?;
            text.push(register_name(register))
        }
        Value::Image(a) => {
            text.push(b"image:")?;
            push_word(text, a)
        }
        Value::Index16 { k, mark } => {
            text.push(b"index:")?;
            text.dec(k)?;
            push_mark(text, mark)
        }
        Value::EntryPtr(table) => {
            text.push(b"entryptr:")?;
            text.dec(table as u64)
        }
        Value::EntryTyped { table, tag } => {
            text.push(b"entrytyped:")?;
            push_tagged(text, table, tag)
        }
        Value::TagOf { table, via } => {
            text.push(b"tag:")?;
            text.dec(table as u64)?;
            text.push(b":")?;
            push_via(text, via)
        }
        Value::TableFn { table, tag } => {
            text.push(b"tablefn:")?;
            push_tagged(text, table, tag)
        }
        Value::JumpOff { a, k } => {
            text.push(b"jumpoff:")?;
            push_jump(text, a, k)
        }
        Value::JumpDest { a, k } => {
            text.push(b"jumpdest:")?;
            push_jump(text, a, k)
        }
    }
}

// Appends a place.
pub fn push_place(text: &mut Text, place: Spot) -> Result<(), OutOfMemory>
    ensures { OnOk result (text.new ≡ text.old ++ place_text place) }
{
    match place {
        Spot::Reg(register) => text.push(register_name(register)),
        Spot::Flags => text.push(b"flags"),
        Spot::Slot(offset) => {
            text.push(b"s")?;
            push_signed(text, offset)
        }
    }
}
