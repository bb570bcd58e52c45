ghost use Rattle.std.specs.Prelude.{◌≡◌};
ghost use Rattle.vw_insn.specs.Listed.{IsWide};
ghost use Rattle.vw_insn.specs.Words.{low};
ghost use Rattle.vw_values.specs.Refinements.{below, equal, equal_whole, cut, cut_whole, cut_half, cut_below, const_below, const_where};

use crate::{Bounds, Value};
use vw_insn::Width;

const WHOLE: u64 = 0x1_0000_0000;

/// What is left of a value where x < k holds of the low bits of this width, 32 or 64, of its numbers. None is an edge
/// that is not there: no number passes.
pub fn below(v: Value, width: Width, k: u64, bounds: &Bounds) -> Option<Value>
    requires { IsWide width }
    ensures { result ≡ below v width k bounds.now }
{
    match v {
        Value::Const(c) => const_below(c, width, k),
        Value::Num | Value::Below(_) | Value::Low(_) | Value::Both(_) => {
            cut_below(v, width, k, bounds)
        }
        _ => Some(v),
    }
}

fn const_below(c: u64, width: Width, k: u64) -> Option<Value>
    requires { IsWide width }
    ensures { result ≡ const_below c width k }
{
    if low(width, c) < k {
        Some(Value::Const(c))
    } else {
        None
    }
}

fn low(width: Width, x: u64) -> u64
    requires { IsWide width }
    ensures { result ≡ low width x }
{
    match width {
        Width::W32 => x % WHOLE,
        _ => x,
    }
}

fn cut_below(v: Value, width: Width, k: u64, bounds: &Bounds) -> Option<Value>
    ensures { result ≡ cut_below v width k bounds.now }
{
    if k == 0 {
        return None;
    }
    Some(cut(width, bounds.up(k), v))
}

fn cut(width: Width, bound: Option<u64>, v: Value) -> Value
    ensures { result ≡ cut width bound v }
{
    match bound {
        None => v,
        Some(u) => match width {
            Width::W32 => { if u < WHOLE { cut_half(u, v) } else { v } }
            Width::W64 => cut_whole(u, v),
            _ => v,
        },
    }
}

fn cut_whole(u: u64, v: Value) -> Value
    ensures { result ≡ cut_whole u v }
{
    match v {
        Value::Num => Value::Below(u),
        Value::Below(j) => Value::Below(j.min(u)),
        Value::Low(j) | Value::Both(j) => {
            if u <= WHOLE {
                Value::Below(j.min(u))
            } else {
                Value::Both(j)
            }
        }
        _ => v,
    }
}

fn cut_half(u: u64, v: Value) -> Value
    ensures { result ≡ cut_half u v }
{
    match v {
        Value::Num => Value::Low(u),
        Value::Below(j) => {
            if j <= WHOLE {
                Value::Below(j.min(u))
            } else {
                Value::Both(u)
            }
        }
        Value::Low(j) => Value::Low(j.min(u)),
        Value::Both(j) => Value::Both(j.min(u)),
        _ => v,
    }
}

/// What is left of a value where the low bits of this width, 32 or 64, of its numbers are `k`. None is an edge that is
/// not there: no number passes.
pub fn equal(v: Value, width: Width, k: u64, bounds: &Bounds) -> Option<Value>
    requires { IsWide width }
    ensures { result ≡ equal v width k bounds.now }
{
    match width {
        Width::W32 => match k.checked_add(1) {
            None => {
                bounds.are_bounds();
                Some(v)
            }
            Some(more) => below(v, Width::W32, more, bounds),
        },
        _ => equal_whole(v, k),
    }
}

fn equal_whole(v: Value, k: u64) -> Option<Value>
    ensures { result ≡ equal_whole v k }
{
    match v {
        Value::Num => Some(Value::Const(k)),
        Value::Const(c) => const_where(c == k, k),
        Value::Below(j) => const_where(k < j, k),
        Value::Low(j) => const_where(k % WHOLE < j, k),
        Value::Both(j) => const_where(k < 2 * WHOLE && k % WHOLE < j, k),
        _ => Some(v),
    }
}

fn const_where(test: bool, k: u64) -> Option<Value>
    ensures { result ≡ const_where test k }
{
    if test { Some(Value::Const(k)) } else { None }
}
