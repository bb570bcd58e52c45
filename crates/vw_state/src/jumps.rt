//! Tables of jumps that values tell of.

ghost use Rattle.std.specs.Prelude.{◌≡◌, ◌↔◌, IsTrue};
ghost use Rattle.vw_state.specs.Checks.{AllInside};
ghost use Rattle.vw_state.specs.Context.{Context, IsSite};
ghost use Rattle.vw_state.specs.Post.{jump_table, entry_target};

use crate::Site;
use vw_switch::target;
use vw_values::Value;

/// Entries of a table of jumps, of which one names a destination: its address and a signed distance from there.
#[derive(Clone, Copy, PartialEq, Eq)]
pub struct JumpTable {
    /// The address of the table, counted from the load address.
    pub base: u64,
    /// The number of its first entries that may be taken, at most 65,536.
    pub count: u64,
}

/// The table of jumps that a value tells of. None: it tells of none. Takes no memory.
pub fn jump_table(value: Value) -> Option<JumpTable>
    ensures { result ≡ jump_table value }
{
    match value {
        Value::JumpDest { a, k } => Some(JumpTable { base: a, count: k }),
        _ => None,
    }
}

// The point to which entry `i` of a table leads.
pub(crate) fn entry_target(site: &Site, table: JumpTable, i: u64) -> Option<u32>
    ensures { (f : Context) → IsSite f site.now → result ≡ entry_target f table i }
{
    target(site.image, table.base, i, site.entry, site.size)
}

/// Whether each of a table's entries that may be taken leads to a point of the function. Takes no memory.
pub fn stays_inside(site: &Site, table: JumpTable) -> bool
    ensures { (f : Context) → IsSite f site.now → (IsTrue result ↔ AllInside f table) }
{
    for i in 0..table.count {
        if entry_target(site, table, i).is_none() {
            return false;
        }
    }
    true
}
