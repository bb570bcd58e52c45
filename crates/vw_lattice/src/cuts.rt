ghost use Rattle.std.specs.Prelude.{◌≡◌, ◌++◌, ◌≤◌, take, drop, length};
ghost use Rattle.vw_lattice.specs.Entries.{IsAscending, CutsKeys};

use crate::places::place;

// Takes out the entries from `from` to `to` - 1, in one pass.
fn take_out<V: Drop>(entries: &mut Vec<(i64, V)>, from: usize, to: usize)
    requires ordered { from ≤ to }
    requires within { to ≤ length entries.old.items }
    ensures { entries.new.items ≡ take from entries.old.items ++ drop to entries.old.items }
{
    let count = to - from;
    let tail = &mut entries[from..];
    tail.rotate_left(count);
    let kept = entries.len() - count;
    entries.truncate(kept);
}

// Takes out the keys from `low` to `high` - 1, in one pass and without memory.
pub fn cut_keys<V: Drop>(entries: &mut Vec<(i64, V)>, low: i64, high: i64)
    requires { IsAscending entries.old.items }
    ensures { CutsKeys low high entries.old.items entries.new.items }
{
    let from = place(entries.as_slice(), low);
    let to = place(entries.as_slice(), high);
    if from < to {
        take_out(entries, from, to);
    }
}
