ghost use Rattle.std.specs.Prelude.{◌≡◌, None};
ghost use Rattle.vw_values.specs.Shapes.{shape_of, value_of, number_of, value_of_count};

use crate::{Value, Via};

/// What values can be joined without losing everything: values of two families have no bound but Any.
#[derive(Clone, Copy, PartialEq, Eq)]
pub enum Family {
    Any,
    Number,
    Heap,
    Globals,
    Entry(u8),
    Image(u64),
    Index,
    Pointer(u32),
    TagOf(u32, Via),
    TableFn(u32, u64),
    JumpOff(u64),
    JumpDest(u64),
}

/// A value as its family and bounds within it. A number's high half is at most `high`, and its low
/// half is below `low`.
#[derive(Clone, Copy)]
pub struct Shape {
    pub family: Family,
    pub high: u64,
    pub low: u64,
    pub mark: Option<(u32, u64)>,
}

const WHOLE: u64 = 0x1_0000_0000;

fn symbol_shape(family: Family, low: u64, mark: Option<(u32, u64)>) -> Shape
    ensures { result ≡ record { family = family; high = 0; low = low; mark = mark } }
{
    Shape {
        family,
        high: 0,
        low,
        mark,
    }
}

fn number_shape(high: u64, low: u64) -> Shape
    ensures { result ≡ record { family = Family.Number; high = high; low = low; mark = None } }
{
    Shape {
        family: Family::Number,
        high,
        low,
        mark: None,
    }
}

/// The shape of a value.
pub fn shape_of(v: Value) -> Shape
    ensures { result ≡ shape_of v }
{
    match v {
        Value::Any => symbol_shape(Family::Any, 1, None),
        Value::Num => number_shape(WHOLE - 1, WHOLE),
        Value::Const(c) => Shape {
            family: Family::Number,
            high: c / WHOLE,
            low: c % WHOLE + 1,
            mark: Some((0, c)),
        },
        Value::Below(k) => number_shape(k.saturating_sub(1) / WHOLE, k.min(WHOLE)),
        Value::Low(k) => number_shape(WHOLE - 1, k),
        Value::Both(k) => number_shape(1, k),
        Value::HeapBase => symbol_shape(Family::Heap, 1, None),
        Value::HeapAddr => symbol_shape(Family::Heap, WHOLE, None),
        Value::Globals => symbol_shape(Family::Globals, 1, None),
        Value::Entry(r) => symbol_shape(Family::Entry(r), 1, None),
        Value::Image(a) => symbol_shape(Family::Image(a), 1, None),
        Value::Index16 { k, mark } => symbol_shape(Family::Index, k, mark),
        Value::EntryPtr(table) => symbol_shape(Family::Pointer(table), 1, None),
        Value::EntryTyped { table, tag } => symbol_shape(
            Family::Pointer(table),
            1,
            Some((table, tag)),
        ),
        Value::TagOf { table, via } => symbol_shape(Family::TagOf(table, via), 1, None),
        Value::TableFn { table, tag } => symbol_shape(Family::TableFn(table, tag), 1, None),
        Value::JumpOff { a, k } => symbol_shape(Family::JumpOff(a), k, None),
        Value::JumpDest { a, k } => symbol_shape(Family::JumpDest(a), k, None),
    }
}

// The number with these bounds of its halves.
fn number_of(high: u64, low: u64) -> Value
    ensures { result ≡ number_of high low }
{
    if high == 0 {
        Value::Below(low)
    } else if high == 1 {
        if low < WHOLE {
            Value::Both(low)
        } else {
            Value::Below(2 * WHOLE)
        }
    } else if low < WHOLE {
        Value::Low(low)
    } else {
        Value::Num
    }
}

// Indices of tables are at most 65,536.
fn value_of_count(k: u64, v: Value) -> Value
    ensures { result ≡ value_of_count k v }
{
    if k <= 65536 { v } else { Value::Any }
}

/// The least value whose shape is not below the given one.
pub fn value_of(s: Shape) -> Value
    ensures { result ≡ value_of s }
{
    match s.family {
        Family::Any => Value::Any,
        Family::Number => match s.mark {
            None => number_of(s.high, s.low),
            Some((_, c)) => Value::Const(c),
        },
        Family::Heap => {
            if s.low <= 1 {
                Value::HeapBase
            } else {
                Value::HeapAddr
            }
        }
        Family::Globals => Value::Globals,
        Family::Entry(r) => Value::Entry(r),
        Family::Image(a) => Value::Image(a),
        Family::Index => value_of_count(
            s.low,
            Value::Index16 {
                k: s.low,
                mark: s.mark,
            },
        ),
        Family::Pointer(table) => match s.mark {
            None => Value::EntryPtr(table),
            Some((_, tag)) => Value::EntryTyped { table, tag },
        },
        Family::TagOf(table, via) => Value::TagOf { table, via },
        Family::TableFn(table, tag) => Value::TableFn { table, tag },
        Family::JumpOff(a) => value_of_count(s.low, Value::JumpOff { a, k: s.low }),
        Family::JumpDest(a) => value_of_count(s.low, Value::JumpDest { a, k: s.low }),
    }
}
