ghost use Rattle.std.specs.Prelude.{◌≡◌, ◌+◌, ◌*◌, ◌-◌};
ghost use Rattle.vw_values.specs.Scales.{scale, scale_extent, shl4, shl4_extent, index_or_num};
ghost use Rattle.vw_values.specs.Sums.{rounded_bound};

use crate::bounds::up_after;
use crate::extent::{Extent, extent_of};
use crate::sums::rounded_bound;
use crate::{Bounds, Value};

/// A value times `by`, modulo 2^64, as an address counts a scaled index (SDM volume 1, 3.7.5).
pub fn scale(v: Value, by: u8) -> Value
    ensures { result ≡ scale v by }
{
    if by == 1 {
        v
    } else {
        scale_extent(by as u64, extent_of(v))
    }
}

fn scale_extent(by: u64, extent: Extent) -> Value
    ensures { result ≡ scale_extent by extent }
{
    match extent {
        Extent::Exactly(c) => Value::Const(by.wrapping_mul(c)),
        Extent::Under(k) => rounded_multiple(by, k.saturating_sub(1)),
        _ => Value::Num,
    }
}

// A number that is at most `by` times `last`.
fn rounded_multiple(by: u64, last: u64) -> Value
    ensures { result ≡ rounded_bound (by * last + 1) }
{
    match by.checked_mul(last) {
        None => Value::Num,
        Some(most) => rounded_above(most),
    }
}

fn rounded_above(most: u64) -> Value
    ensures { result ≡ rounded_bound (most + 1) }
{
    match most.checked_add(1) {
        None => Value::Num,
        Some(n) => rounded_bound(n),
    }
}

/// A value times 16, modulo 2^64: its bits move left by four (SDM volume 2, "SAL/SAR/SHL/SHR").
pub fn shl4(v: Value, bounds: &Bounds) -> Value
    ensures { result ≡ shl4 v bounds.now }
{
    shl4_extent(extent_of(v), bounds)
}

fn shl4_extent(extent: Extent, bounds: &Bounds) -> Value
    ensures { result ≡ shl4_extent bounds.now extent }
{
    match extent {
        Extent::Exactly(c) => {
            if c < 65536 {
                index_or_num(up_after(c, bounds))
            } else {
                Value::Any
            }
        }
        Extent::Under(k) => {
            if k <= 65536 {
                Value::Index16 { k, mark: None }
            } else {
                Value::Any
            }
        }
        _ => Value::Any,
    }
}

fn index_or_num(k: Option<u64>) -> Value
    ensures { result ≡ index_or_num k }
{
    match k {
        None => Value::Num,
        Some(k) => Value::Index16 { k, mark: None },
    }
}
