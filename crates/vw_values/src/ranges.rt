ghost use Rattle.std.specs.Prelude.{◌↔◌, IsTrue};
ghost use Rattle.vw_values.specs.Values.{IsValue, IsAmong, IsCount, IsMark, IsTag, IsVia};

use crate::{Bounds, Value, Via};

const WHOLE: u64 = 0x1_0000_0000;

fn is_tag(tag: u64) -> bool
    ensures { IsTrue result ↔ IsTag tag }
{
    tag < WHOLE - 1
}

fn is_mark(mark: Option<(u32, u64)>) -> bool
    ensures { IsTrue result ↔ IsMark mark }
{
    match mark {
        None => true,
        Some((table, tag)) => table == 0 && is_tag(tag),
    }
}

fn is_via(via: Via) -> bool
    ensures { IsTrue result ↔ IsVia via }
{
    match via {
        Via::At(r) => r < 16,
        Via::Idx(r) => r < 16,
    }
}

fn is_count(k: u64) -> bool
    ensures { IsTrue result ↔ IsCount k }
{
    1 <= k && k <= 65536
}

impl Value {
    /// Whether the numbers in the value have their ranges.
    pub fn is_in_range(self) -> bool
        ensures { IsTrue result ↔ IsValue self }
    {
        match self {
            Value::Below(k) => 1 <= k && (k <= WHOLE || k == 2 * WHOLE),
            Value::Low(k) | Value::Both(k) => 1 <= k && k < WHOLE,
            Value::Entry(r) => r < 16,
            Value::Index16 { k, mark } => is_count(k) && is_mark(mark),
            Value::EntryPtr(table) => table < 64,
            Value::EntryTyped { table, tag } | Value::TableFn { table, tag } => {
                table < 64 && is_tag(tag)
            }
            Value::TagOf { table, via } => table < 64 && is_via(via),
            Value::JumpOff { a: _, k } | Value::JumpDest { a: _, k } => is_count(k),
            Value::Any
            | Value::Num
            | Value::Const(_)
            | Value::HeapBase
            | Value::HeapAddr
            | Value::Globals
            | Value::Image(_) => true,
        }
    }

    /// Whether the bound that the value names, where it names one, is among these.
    pub fn fits(self, bounds: &Bounds) -> bool
        ensures { IsTrue result ↔ IsAmong bounds.now self }
    {
        match self {
            Value::Below(k)
            | Value::Low(k)
            | Value::Both(k)
            | Value::Index16 { k, mark: _ }
            | Value::JumpOff { a: _, k }
            | Value::JumpDest { a: _, k } => bounds.contains(k),
            Value::Any
            | Value::Num
            | Value::Const(_)
            | Value::HeapBase
            | Value::HeapAddr
            | Value::Globals
            | Value::Entry(_)
            | Value::Image(_)
            | Value::EntryPtr(_)
            | Value::EntryTyped { .. }
            | Value::TagOf { .. }
            | Value::TableFn { .. } => true,
        }
    }
}
