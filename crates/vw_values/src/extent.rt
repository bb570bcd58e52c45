ghost use Rattle.std.specs.Prelude.{◌≡◌};
ghost use Rattle.vw_values.specs.Sums.{extent_of};

use crate::Value;

/// What an operation on numbers sees of a value: this number, a number below a bound, any number, or a value that is no
/// number.
#[derive(Clone, Copy)]
pub enum Extent {
    Exactly(u64),
    Under(u64),
    Unbounded,
    Other(Value),
}

/// The extent of a value. `Both(_)` counts as `Below` of 2^33.
pub fn extent_of(v: Value) -> Extent
    ensures { result ≡ extent_of v }
{
    match v {
        Value::Num | Value::Low(_) => Extent::Unbounded,
        Value::Const(c) => Extent::Exactly(c),
        Value::Below(k) => Extent::Under(k),
        Value::Both(_) => Extent::Under(0x2_0000_0000),
        _ => Extent::Other(v),
    }
}
