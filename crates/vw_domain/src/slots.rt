ghost use Rattle.std.specs.Prelude.{◌≡◌, ◌↔◌, ◌≤◌, ◌<◌, ℕ, length, IsTrue};
ghost use Rattle.vw_values.specs.Values.{IsAmong};
ghost use Rattle.vw_domain.specs.State.{AreSlots, AreSlotsAmong};

use vw_lattice::MapOf;
use vw_values::{Bounds, Value};

// Whether the bound that each slot's value names is among these.
pub(crate) fn are_slots_among(slots: &MapOf<Value>, bounds: &Bounds) -> bool
    requires { AreSlots slots.now }
    ensures { IsTrue result ↔ AreSlotsAmong bounds.now slots.now }
{
    for i in 0..usize::MAX {
        match slots.nth(i) {
            None => return true,
            Some((_key, value)) => {
                if !value.fits(bounds) {
                    return false;
                }
            }
        }
    }
    true
}

// Whether two values are equal, and the bound that they name is among these.
fn is_value_same(value: &Value, other: &Value, bounds: &Bounds) -> bool
    ensures { IsTrue result ↔ ((value.now ≡ other.now) × IsAmong bounds.now other.now) }
{
    *value == *other && other.fits(bounds)
}

// Whether slots are equal, and the bound that each one's value names is among these, in one pass over both.
pub(crate) fn are_slots_same(slots: &MapOf<Value>, other: &MapOf<Value>, bounds: &Bounds) -> bool
    requires { AreSlots other.now }
    ensures { IsTrue result ↔ ((slots.now ≡ other.now) × AreSlotsAmong bounds.now other.now) }
{
    if slots.len() != other.len() {
        return false;
    }
    for i in 0..slots.len() {
        let Some((key, value)) = slots.nth(i) else {
            return true;
        };
        let Some((at, same)) = other.nth(i) else {
            return true;
        };
        if key != at {
            return false;
        }
        if !is_value_same(value, same, bounds) {
            return false;
        }
    }
    true
}
