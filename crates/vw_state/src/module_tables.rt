ghost use Rattle.std.specs.Prelude.{◌≡◌, ◌≤◌, length, map, IfOk};
ghost use Rattle.std.specs.List.{All};
ghost use Rattle.vw_layout.specs.Layout.{IsWhole};
ghost use Rattle.vw_state.specs.Context.{extent_of, lengths_of};

use crate::laws::tables_are_short;
use std::alloc::Global;
use vw_bits::{List, OutOfMemory};
use vw_layout::{Module, TableInfo, tables_are_few};
use vw_values::TableList;

/// The address and the number of entries of each table of a module, in their order; at most 64. OutOfMemory where the
/// allocator refuses a request.
pub fn tables_of(alloc: Global, loaded: &Module) -> Result<TableList, OutOfMemory>
    requires { IsWhole loaded.now }
    ensures tables { IfOk result (λ tables. tables ≡ map extent_of loaded.now.tables) }
    ensures few { IfOk result (λ tables. length tables ≤ 64) }
{
    tables_are_few();
    extents(alloc, loaded.tables.as_slice())
}

fn extents(alloc: Global, tables: &[TableInfo]) -> Result<TableList, OutOfMemory>
    ensures { IfOk result (λ list. list ≡ map extent_of tables.now) }
{
    let mut list = List::new(alloc);
    for table in tables {
        list.push((table.address, table.entries.as_slice().len() as u64))?;
    }
    Ok(list)
}

/// The number of entries of each table of a module, in their order; at most 65,536 each. OutOfMemory where the
/// allocator refuses a request.
pub fn lengths_of(alloc: Global, loaded: &Module) -> Result<List<u64>, OutOfMemory>
    requires { IsWhole loaded.now }
    ensures lengths { IfOk result (λ lengths. lengths ≡ lengths_of loaded.now.tables) }
    ensures short { IfOk result (All (λ n. n ≤ 65536)) }
{
    tables_are_short();
    counts(alloc, loaded.tables.as_slice())
}

fn counts(alloc: Global, tables: &[TableInfo]) -> Result<List<u64>, OutOfMemory>
    ensures { IfOk result (λ list. list ≡ lengths_of tables.now) }
{
    let mut list = List::new(alloc);
    for table in tables {
        list.push(table.entries.as_slice().len() as u64)?;
    }
    Ok(list)
}
