//! Which bytes of its frame an activation has written.

ghost use Rattle.std.specs.Prelude.{◌≡◌, ℕ, ◌<◌, ◌≤◌, ◌&&◌, ◌||◌, nat_le, nat_lt, true, if◌then◌else◌, ◌==◌, Some, IsSome, OnOk};
ghost use Rattle.std.specs.BTreeMap.{get};
ghost use Rattle.std.specs.Ordering.{nat_cmp};
ghost use Rattle.vw_machine.specs.Kept.{is_marked};

use std::collections::BTreeMap;
use vw_bits::OutOfMemory;

// Makes room for marks at the addresses from `from` to, and without, `to`, so that none of them needs memory
// afterwards. No mark changes, also where memory is refused.
pub(crate) fn make_room(
    written: &mut BTreeMap<u64, bool>,
    from: u64,
    to: u64,
) -> Result<(), OutOfMemory>
    ensures same { (q : ℕ) → is_marked written.new q ≡ is_marked written.old q }
    ensures room { OnOk result ((q : ℕ) → from ≤ q → q < to → IsSome (get nat_cmp written.new q)) }
{
    for at in from..to {
        if !written.contains_key(&at) {
            written.insert(at, false)?;
        }
    }
    Ok(())
}

// Sets a mark where there is room.
fn set_mark(written: &mut BTreeMap<u64, bool>, at: u64)
    requires { IsSome (get nat_cmp written.old at) }
    ensures { (q : ℕ) → get nat_cmp written.new q
        ≡ (if q == at then Some true else get nat_cmp written.old q) }
{
    let _ = written.insert(at, true);
}

// Sets the marks from `from` to, and without, `to`, where there is room.
pub(crate) fn set_marks(written: &mut BTreeMap<u64, bool>, from: u64, to: u64)
    requires { (q : ℕ) → from ≤ q → q < to → IsSome (get nat_cmp written.old q) }
    ensures { (q : ℕ) → is_marked written.new q
        ≡ ((nat_le from q && nat_lt q to) || is_marked written.old q) }
{
    for q in from..to {
        set_mark(written, q);
    }
}
