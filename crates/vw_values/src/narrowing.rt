ghost use Rattle.std.specs.Prelude.{◌≡◌, ◌^◌, ◌<◌};
ghost use Rattle.vw_values.specs.Narrowing.{narrow, narrow32, low_bits, const_or_below, any_number};

use crate::Value;
use vw_insn::Width;

const WHOLE: u64 = 0x1_0000_0000;

/// The low 32 bits of a value, as a word of 64 bits.
pub fn narrow32(v: Value) -> Value
    ensures { result ≡ narrow32 v }
{
    match v {
        Value::Const(c) => Value::Const(c % WHOLE),
        Value::Below(k) => Value::Below(k.min(WHOLE)),
        Value::Low(k) | Value::Both(k) => Value::Below(k),
        _ => Value::Below(WHOLE),
    }
}

/// The low `from` bits of a value, extended to `to` bits by their sign where `signed` and by zeros where not, as a
/// word of 64 bits (SDM volume 2, "MOVSX/MOVSXD" and "MOVZX").
pub fn narrow(v: Value, from: Width, to: Width, signed: bool) -> Value
    ensures { result ≡ narrow v from to signed }
{
    if signed {
        any_number(to)
    } else {
        low_bits(from, v)
    }
}

fn any_number(width: Width) -> Value
    ensures { result ≡ any_number width }
{
    match width {
        Width::W32 => Value::Below(WHOLE),
        _ => Value::Num,
    }
}

fn low_bits(width: Width, v: Value) -> Value
    ensures { result ≡ low_bits width v }
{
    match width {
        Width::W8 => const_or_below(0x100, v),
        Width::W16 => const_or_below(0x1_0000, v),
        Width::W32 => narrow32(v),
        Width::W64 => v,
    }
}

fn const_or_below(n: u64, v: Value) -> Value
    requires { 0 < n }
    ensures { result ≡ const_or_below n v }
{
    match v {
        Value::Const(c) => Value::Const(c % n),
        _ => Value::Below(n),
    }
}
