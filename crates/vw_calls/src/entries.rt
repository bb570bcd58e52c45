ghost use Rattle.std.specs.Prelude.{◌≡◌, ◌≤◌, length};
ghost use Rattle.vw_calls.specs.Entries.{entry_at, entry_of};

use vw_values::{TableList, Value, add};

/// A place in an entry of a table of functions.
#[derive(Clone, Copy, PartialEq, Eq)]
pub struct EntryRef {
    /// The number of the table, counted from 0.
    pub table: u32,
    /// The tag of the entry, where it is known: the number of a type.
    pub tag: Option<u64>,
    /// The distance in bytes from the entry's first byte.
    pub disp: u32,
}

// The place at a displacement from a pointer of which this is known.
fn entry_at(pointer: Value, disp: i32) -> Option<EntryRef>
    ensures { result ≡ entry_at pointer disp }
{
    if disp < 0 {
        return None;
    }
    let disp = disp as u32;
    match pointer {
        Value::EntryPtr(table) => Some(EntryRef {
            table,
            tag: None,
            disp,
        }),
        Value::EntryTyped { table, tag } => Some(EntryRef {
            table,
            tag: Some(tag),
            disp,
        }),
        _ => None,
    }
}

/// The place in an entry of a table that an operand names by a base, an index at scale 1 and a displacement in bytes,
/// where this is known of the base and of the index: the base points to an entry, or base and index are, in either order,
/// the address of a table and the distance of one of its entries, and the displacement is not negative. `tables` holds
/// the address and the number of entries of each table, at most 64. None exactly where no entry is told. Takes no memory.
pub fn entry_of(
    base: Value,
    index: Option<Value>,
    disp: i32,
    tables: &TableList,
) -> Option<EntryRef>
    requires { length tables.now ≤ 64 }
    ensures { result ≡ entry_of base index disp tables.now }
{
    match index {
        None => entry_at(base, disp),
        Some(index) => entry_at(add(base, index, tables), disp),
    }
}
