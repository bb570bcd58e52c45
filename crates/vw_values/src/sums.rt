ghost use Rattle.std.specs.Prelude.{◌≡◌, ◌≤◌, ◌+◌, ◌-◌, length};
ghost use Rattle.vw_values.specs.Sums.{add, add_extents, symbol_sum, below_or_num, rounded_bound, heap_plus, table_from, entry_sum, entry_value, jump_sum, image_plus, index_plus, jump_off_plus, subtract, num_or_any};

use crate::Value;
use crate::bounds::pow;
use crate::extent::{Extent, extent_of};
use vw_bits::List;

/// Each table's address, counted from the load address, and its number of entries, in the order of the tables' numbers.
pub type TableList = List<(u64, u64)>;

const WHOLE: u64 = 0x1_0000_0000;

/// A number below a bound, or any number where there is none.
pub fn below_or_num(bound: Option<u64>) -> Value
    ensures { result ≡ below_or_num bound }
{
    match bound {
        None => Value::Num,
        Some(k) => Value::Below(k),
    }
}

/// A number below `n`, with a power of two for its bound; where `n` is above 2^33, any number.
pub fn rounded_bound(n: u64) -> Value
    ensures { result ≡ rounded_bound n }
{
    below_or_num(pow(n))
}

fn rounded_sum(j: u64, k: u64) -> Value
    ensures { result ≡ rounded_bound (j + k) }
{
    match j.checked_add(k) {
        None => Value::Num,
        Some(n) => rounded_bound(n),
    }
}

fn rounded_under(j: u64, k: u64) -> Value
    ensures { result ≡ rounded_bound (j + k - 1) }
{
    match j.checked_add(k) {
        None => Value::Num,
        Some(n) => rounded_bound(n.saturating_sub(1)),
    }
}

fn heap_plus(q: Extent) -> Value
    ensures { result ≡ heap_plus q }
{
    let stays = match q {
        Extent::Exactly(c) => c < WHOLE,
        Extent::Under(k) => k <= WHOLE,
        _ => false,
    };
    if stays { Value::HeapAddr } else { Value::Any }
}

// The first table with this address: its number and its length.
fn table_at(tables: &[(u64, u64)], a: u64) -> Option<(u32, u64)>
    requires { length tables.now ≤ 64 }
    ensures { result ≡ table_from 0 a tables.now }
{
    let mut number = 0;
    for table in tables {
        if table.0 == a {
            return Some((number, table.1));
        }
        number += 1;
    }
    None
}

fn entry_value(table: u32, mark: Option<(u32, u64)>) -> Value
    ensures { result ≡ entry_value table mark }
{
    match mark {
        None => Value::EntryPtr(table),
        Some((t, tag)) => {
            if t == table {
                Value::EntryTyped { table, tag }
            } else {
                Value::EntryPtr(table)
            }
        }
    }
}

fn entry_sum(tables: &[(u64, u64)], a: u64, k: u64, mark: Option<(u32, u64)>) -> Value
    requires { length tables.now ≤ 64 }
    ensures { result ≡ entry_sum tables.now a k mark }
{
    match table_at(tables, a) {
        None => Value::Any,
        Some((table, len)) => {
            if k <= len {
                entry_value(table, mark)
            } else {
                Value::Any
            }
        }
    }
}

fn jump_sum(a: u64, b: u64, k: u64) -> Value
    ensures { result ≡ jump_sum a b k }
{
    if a == b {
        Value::JumpDest { a, k }
    } else {
        Value::Any
    }
}

fn image_plus(a: u64, q: Extent, tables: &[(u64, u64)]) -> Value
    requires { length tables.now ≤ 64 }
    ensures { result ≡ image_plus tables.now a q }
{
    match q {
        Extent::Exactly(c) => Value::Image(a.wrapping_add(c)),
        Extent::Other(Value::Index16 { k, mark }) => entry_sum(tables, a, k, mark),
        Extent::Other(Value::JumpOff { a: b, k }) => jump_sum(a, b, k),
        _ => Value::Any,
    }
}

fn index_plus(k: u64, mark: Option<(u32, u64)>, q: Extent, tables: &[(u64, u64)]) -> Value
    requires { length tables.now ≤ 64 }
    ensures { result ≡ index_plus tables.now k mark q }
{
    match q {
        Extent::Other(Value::Image(a)) => entry_sum(tables, a, k, mark),
        _ => Value::Any,
    }
}

fn jump_off_plus(b: u64, k: u64, q: Extent) -> Value
    ensures { result ≡ jump_off_plus b k q }
{
    match q {
        Extent::Other(Value::Image(a)) => jump_sum(a, b, k),
        _ => Value::Any,
    }
}

// What a value that is no number becomes by a sum.
fn symbol_sum(v: Value, q: Extent, tables: &[(u64, u64)]) -> Value
    requires { length tables.now ≤ 64 }
    ensures { result ≡ symbol_sum tables.now v q }
{
    match v {
        Value::HeapBase => heap_plus(q),
        Value::Image(a) => image_plus(a, q, tables),
        Value::Index16 { k, mark } => index_plus(k, mark, q, tables),
        Value::JumpOff { a, k } => jump_off_plus(a, k, q),
        _ => Value::Any,
    }
}

fn exactly_plus(c: u64, q: Extent, tables: &[(u64, u64)]) -> Value
    requires { length tables.now ≤ 64 }
    ensures { result ≡ add_extents tables.now (Extent.Exactly c) q }
{
    match q {
        Extent::Other(w) => symbol_sum(w, Extent::Exactly(c), tables),
        Extent::Exactly(d) => Value::Const(c.wrapping_add(d)),
        Extent::Under(k) => rounded_sum(c, k),
        Extent::Unbounded => Value::Num,
    }
}

fn under_plus(j: u64, q: Extent, tables: &[(u64, u64)]) -> Value
    requires { length tables.now ≤ 64 }
    ensures { result ≡ add_extents tables.now (Extent.Under j) q }
{
    match q {
        Extent::Other(w) => symbol_sum(w, Extent::Under(j), tables),
        Extent::Exactly(d) => rounded_sum(d, j),
        Extent::Under(k) => rounded_under(j, k),
        Extent::Unbounded => Value::Num,
    }
}

fn unbounded_plus(q: Extent, tables: &[(u64, u64)]) -> Value
    requires { length tables.now ≤ 64 }
    ensures { result ≡ add_extents tables.now Extent.Unbounded q }
{
    match q {
        Extent::Other(w) => symbol_sum(w, Extent::Unbounded, tables),
        _ => Value::Num,
    }
}

fn add_extents(p: Extent, q: Extent, tables: &[(u64, u64)]) -> Value
    requires { length tables.now ≤ 64 }
    ensures { result ≡ add_extents tables.now p q }
{
    match p {
        Extent::Other(v) => symbol_sum(v, q, tables),
        Extent::Exactly(c) => exactly_plus(c, q, tables),
        Extent::Under(j) => under_plus(j, q, tables),
        Extent::Unbounded => unbounded_plus(q, tables),
    }
}

/// The sum of two values modulo 2^64. `tables` holds at most 64 tables.
pub fn add(a: Value, b: Value, tables: &TableList) -> Value
    requires { length tables.now ≤ 64 }
    ensures { result ≡ add a b tables.now }
{
    add_extents(extent_of(a), extent_of(b), tables.as_slice())
}

/// The difference `a` less `b` of two values modulo 2^64. `tables` holds at most 64 tables.
pub fn subtract(a: Value, b: Value, tables: &TableList) -> Value
    requires { length tables.now ≤ 64 }
    ensures { result ≡ subtract a b tables.now }
{
    match extent_of(b) {
        Extent::Exactly(d) => add(a, Value::Const(d.wrapping_neg()), tables),
        Extent::Other(_) => Value::Any,
        _ => num_or_any(extent_of(a)),
    }
}

fn num_or_any(p: Extent) -> Value
    ensures { result ≡ num_or_any p }
{
    match p {
        Extent::Other(_) => Value::Any,
        _ => Value::Num,
    }
}
