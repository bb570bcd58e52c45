ghost use Rattle.std.specs.Prelude.{◌≡◌, ◌++◌, OnOk};
ghost use Rattle.vw_make.specs.Layout.{function_names};
ghost use Rattle.vw_make.specs.Symbols.{string, strings, string_table, symbol_names};

use crate::buffer::put;
use crate::parts::Func;
use crate::plan::Plan;
use vw_bits::{OutOfMemory, Text};

/// Appends the string table of the dynamic symbols.
#[tactic(auto, unfolding(crate::specs::Symbols::string_table))]
pub fn put_dynamic_strings(out: &mut Vec<u8>, imports: &[Text]) -> Result<(), OutOfMemory>
    ensures { OnOk result (out.new.items ≡ out.old.items ++ string_table imports.now) }
{
    put(out, &[0])?;
    put_import_names(out, imports)
}

fn put_import_names(out: &mut Vec<u8>, imports: &[Text]) -> Result<(), OutOfMemory>
    ensures { OnOk result (out.new.items ≡ out.old.items ++ strings imports.now) }
{
    for import in imports {
        put_string(out, import.as_slice())?;
    }
    Ok(())
}

// Appends a name and its zero byte.
fn put_string(out: &mut Vec<u8>, name: &[u8]) -> Result<(), OutOfMemory>
    ensures { OnOk result (out.new.items ≡ out.old.items ++ string name.now) }
{
    put(out, name)?;
    put(out, &[0])
}

/// Appends the string table of the symbols.
pub fn put_symbol_strings(out: &mut Vec<u8>, plan: &Plan) -> Result<(), OutOfMemory>
    ensures { OnOk result (out.new.items
        ≡ out.old.items ++ string_table (symbol_names plan.now.parts.now)) }
{
    put(out, &[0])?;
    put_function_names(out, plan.parts.functions.as_slice())?;
    let tables = plan.parts.tables.as_slice();
    if tables.is_empty() {
        return Ok(());
    }
    put_string(out, b"lucet_tables")?;
    Ok(())
}

fn put_function_names(out: &mut Vec<u8>, functions: &[Func]) -> Result<(), OutOfMemory>
    ensures { OnOk result (out.new.items ≡ out.old.items ++ strings (function_names functions.now)) }
{
    for func in functions {
        put_string(out, func.name.as_slice())?;
    }
    Ok(())
}
