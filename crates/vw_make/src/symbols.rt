ghost use Rattle.std.specs.Prelude.{◌≡◌, ◌+◌, ◌<◌, ◌^◌, ◌++◌, OnOk, IfOk};
ghost use Rattle.vw_make.specs.Layout.{strings_size, function_names};
ghost use Rattle.vw_make.specs.Plan.{IsPlan};
ghost use Rattle.vw_make.specs.Symbols.{import_symbols, dynamic_symbols, function_symbols, tables_symbol, symbols};

use crate::plan::Plan;
use crate::records::{SymbolEntry, put_null_symbol, put_symbol};
use vw_bits::{OutOfMemory, Text};

/// `st_info` of a function: STB_GLOBAL, STT_FUNC.
const GLOBAL_FUNC: u8 = 0x12;
/// `st_info` of an object: STB_GLOBAL, STT_OBJECT.
const GLOBAL_OBJECT: u8 = 0x11;
/// `st_shndx` of an import: SHN_UNDEF.
const UNDEFINED: u16 = 0;
/// `st_shndx` of what is defined here.
const DEFINED: u16 = 1;

/// Appends the dynamic symbols: a null one, and one for each import.
#[tactic(auto, unfolding(crate::specs::Symbols::dynamic_symbols))]
pub fn put_dynamic_symbols(out: &mut Vec<u8>, imports: &[Text]) -> Result<(), OutOfMemory>
    requires { strings_size imports.now < 2 ^ 32 }
    ensures { OnOk result (out.new.items ≡ out.old.items ++ dynamic_symbols imports.now) }
{
    put_null_symbol(out)?;
    put_import_symbols(out, imports)
}

#[tactic(auto, unfolding(crate::specs::Symbols::import_symbols))]
fn put_import_symbols(out: &mut Vec<u8>, imports: &[Text]) -> Result<(), OutOfMemory>
    requires { strings_size imports.now < 2 ^ 32 }
    ensures { OnOk result (out.new.items ≡ out.old.items ++ import_symbols imports.now) }
{
    let mut name: u32 = 1;
    for import in imports {
        let entry = SymbolEntry {
            name,
            info: GLOBAL_FUNC,
            section: UNDEFINED,
            value: 0,
            size: 0,
        };
        put_symbol(out, &entry)?;
        name += import.as_slice().len() as u32 + 1;
    }
    Ok(())
}

/// Appends the symbols: a null one, the functions, and `lucet_tables` where there is a table.
pub fn put_symbols(out: &mut Vec<u8>, plan: &Plan) -> Result<(), OutOfMemory>
    requires { IsPlan plan.now }
    ensures { OnOk result (out.new.items ≡ out.old.items ++ symbols plan.now.parts.now plan.now.layout) }
{
    put_null_symbol(out)?;
    let name = put_function_symbols(out, plan)?;
    if plan.parts.tables.is_empty() {
        return Ok(());
    }
    put_tables_symbol(out, plan, name)?;
    Ok(())
}

// Appends the symbol of `lucet_tables`, whose name begins at `name` in the string table.
fn put_tables_symbol(out: &mut Vec<u8>, plan: &Plan, name: u32) -> Result<(), OutOfMemory>
    requires plan { IsPlan plan.now }
    requires name { name ≡ strings_size (function_names plan.now.parts.now.functions) }
    ensures { OnOk result (out.new.items ≡ out.old.items ++ tables_symbol plan.now.parts.now plan.now.layout) }
{
    let entry = SymbolEntry {
        name,
        info: GLOBAL_OBJECT,
        section: DEFINED,
        value: plan.layout.lucet_tables,
        size: 16 * plan.sizes.tables,
    };
    put_symbol(out, &entry)?;
    Ok(())
}

// Appends the symbols of the functions. Answers where the next name begins in the string table.
#[tactic(auto, unfolding(crate::specs::Symbols::function_symbols))]
fn put_function_symbols(out: &mut Vec<u8>, plan: &Plan) -> Result<u32, OutOfMemory>
    requires { IsPlan plan.now }
    ensures next { IfOk result (λ next. next ≡ strings_size (function_names plan.now.parts.now.functions)) }
    ensures bytes { OnOk result (out.new.items
        ≡ out.old.items ++ function_symbols plan.now.parts.now.functions plan.now.layout) }
{
    let functions = plan.parts.functions.as_slice();
    let mut name: u32 = 1;
    for (number, func) in functions.iter().enumerate() {
        let entry = SymbolEntry {
            name,
            info: GLOBAL_FUNC,
            section: DEFINED,
            value: plan.functions[number],
            size: func.code.len() as u64,
        };
        put_symbol(out, &entry)?;
        name += func.name.as_slice().len() as u32 + 1;
    }
    Ok(name)
}
