ghost use Rattle.std.specs.Prelude.{◌≡◌, ◌++◌, IfOk, OnOk};
ghost use Rattle.vw_layout.specs.Layout.{IsWhole, declared_functions, declared_tables};
ghost use Rattle.vw_dynamic.specs.Dynamic.{file_imports};
ghost use Rattle.vw_app.specs.Lines.{address_text, function_line, table_line, import_line, info_text, function_lines, table_lines, import_lines};

use crate::lines::{push_count, push_name};
use std::alloc::Global;
use vw_bits::{OutOfMemory, Text};
use vw_dynamic::Imports;
use vw_layout::{Function, Module, TableInfo};

/// The functions, the tables and the imports of a module, each on a line.
pub fn info_text(alloc: Global, loaded: &Module) -> Result<Text, OutOfMemory>
    requires { IsWhole loaded.now }
    ensures { IfOk result (λ text. text ≡ info_text (declared_functions loaded.now.image.bytes)
        (declared_tables loaded.now.image.bytes) (file_imports loaded.now.image.bytes)) }
{
    let mut text = Text::new(alloc);
    push_functions(&mut text, loaded.functions.as_slice())?;
    push_tables(&mut text, loaded.tables.as_slice())?;
    push_imports(&mut text, loaded.image.imports())?;
    Ok(text)
}

fn push_functions(text: &mut Text, functions: &[Function]) -> Result<(), OutOfMemory>
    ensures { OnOk result (text.new ≡ text.old ++ function_lines functions.now) }
{
    push_count(text, b"functions ", functions.len() as u64)?;
    for function in functions {
        push_function(text, function)?;
    }
    Ok(())
}

fn push_tables(text: &mut Text, tables: &[TableInfo]) -> Result<(), OutOfMemory>
    ensures { OnOk result (text.new ≡ text.old ++ table_lines tables.now) }
{
    push_count(text, b"tables ", tables.len() as u64)?;
    for (number, table) in tables.iter().enumerate() {
        push_table(text, number, table)?;
    }
    Ok(())
}

fn push_imports(text: &mut Text, imports: &Imports) -> Result<(), OutOfMemory>
    ensures { OnOk result (text.new ≡ text.old ++ import_lines imports.now) }
{
    let count = imports.len();
    push_count(text, b"imports ", count as u64)?;
    for number in 0..count {
        push_import(text, number, imports.name(number))?;
    }
    Ok(())
}

fn push_function(text: &mut Text, function: &Function) -> Result<(), OutOfMemory>
    ensures { OnOk result (text.new ≡ text.old ++ function_line function.now) }
{
    push_address(text, function.entry)?;
    text.push(b" ")?;
    text.dec(function.size as u64)?;
    text.push(b" ")?;
    push_name(text, function.name.as_slice())?;
    text.push(b"\n")
}

fn push_table(text: &mut Text, number: usize, table: &TableInfo) -> Result<(), OutOfMemory>
    ensures { OnOk result (text.new ≡ text.old ++ table_line (number, table.now)) }
{
    text.dec(number as u64)?;
    text.push(b" ")?;
    push_address(text, table.address)?;
    text.push(b" ")?;
    text.dec(table.entries.as_slice().len() as u64)?;
    text.push(b"\n")
}

fn push_import(text: &mut Text, number: u32, name: &[u8]) -> Result<(), OutOfMemory>
    ensures { OnOk result (text.new ≡ text.old ++ import_line (number, name.now)) }
{
    text.dec(number as u64)?;
    text.push(b" ")?;
    push_name(text, name)?;
    text.push(b"\n")
}

// Appends an address in sixteen hexadecimal digits.
fn push_address(text: &mut Text, address: u64) -> Result<(), OutOfMemory>
    ensures { OnOk result (text.new ≡ text.old ++ address_text address) }
{
    text.push(b"0x")?;
    text.hex(address, 16)
}
