ghost use Rattle.std.specs.Prelude.{◌≡◌, ◌≢◌, ◌↔◌, IsTrue, false, IfOk, OnOk};
ghost use Rattle.vw_values.specs.Values.{IsNumber, IsValid, IsValue, mark_below, under_below, under_both, under_heap, under_index, under_jump_dest, under_jump_off, under_low, under_pointer, value_below};
ghost use Rattle.vw_lattice.specs.Order.{IsJoin, IsLeast, TellsChange};
ghost use Rattle.vw_values.specs.Rank.{value_rank};
ghost use Rattle.vw_values.specs.Joins.{join, shared_mark};
ghost use Rattle.vw_values.specs.OrderLaws.{reflexive, transitive, antisymmetric, rank_falls, rank_strict};

use crate::shape::{Shape, shape_of, value_of};
use crate::{Bounds, Value};
use vw_bits::OutOfMemory;
use vw_lattice::Lattice;

const WHOLE: u64 = 0x1_0000_0000;

// The mark that both have, where they have one.
fn shared_mark(m: Option<(u32, u64)>, n: Option<(u32, u64)>) -> Option<(u32, u64)>
    ensures { result ≡ shared_mark m n }
{
    if m == n { m } else { None }
}

// Whether two values are one; the next function asks it of two families. Proofs take these tests from their clauses.
fn same(a: Value, b: Value) -> bool
    ensures same { IsTrue result → a ≡ b }
    ensures apart { result ≡ false → a ≢ b }
{
    a == b
}

fn are_apart(s: Shape, t: Shape) -> bool
    ensures same { result ≡ false → s.family ≡ t.family }
    ensures apart { IsTrue result → s.family ≢ t.family }
{
    s.family != t.family
}

// The least value above both: that of the raised bounds where both are of one family, else Any.
fn join_of(a: Value, b: Value, bounds: &Bounds) -> Value
    ensures { result ≡ join bounds.now a b }
{
    let s = shape_of(a);
    let t = shape_of(b);
    if are_apart(s, t) {
        return Value::Any;
    }
    match bounds.up(s.low.max(t.low)) {
        None => Value::Any,
        Some(low) => {
            let mark = shared_mark(s.mark, t.mark);
            value_of(Shape {
                family: s.family,
                high: s.high.max(t.high),
                low,
                mark,
            })
        }
    }
}

impl Lattice for Value {
    type Bounds = Bounds;

    ghost valid = { IsValid };

    ghost well_formed = { IsValue };

    ghost below = { value_below };

    ghost rank = { value_rank };

    fn leq(&self, other: &Self) -> bool {
        let low = *self;
        match *other {
            Value::Any => true,
            Value::Num => is_number(low),
            Value::Below(k) => is_under_below(k, low),
            Value::Low(k) => is_under_low(k, low),
            Value::Both(k) => is_under_both(k, low),
            Value::HeapAddr => is_under_heap(low),
            Value::Index16 { k, mark } => is_under_index(k, mark, low),
            Value::EntryPtr(t) => is_under_pointer(t, low),
            Value::JumpOff { a, k } => is_under_jump_off(a, k, low),
            Value::JumpDest { a, k } => is_under_jump_dest(a, k, low),
            Value::Const(_)
            | Value::HeapBase
            | Value::Globals
            | Value::Entry(_)
            | Value::Image(_)
            | Value::EntryTyped { .. }
            | Value::TagOf { .. }
            | Value::TableFn { .. } => same(low, *other),
        }
    }

    /// The new value is the join of the old one and the other, whatever their bounds: of values in their ranges it is
    /// the least valid value above both.
    fn join(&mut self, other: &Self, bounds: &Bounds) -> Result<bool, OutOfMemory>
        ensures equal { self.new ≡ join bounds.now self.old other.now }
        ensures kept { IsValid bounds.now self.old → IsValid bounds.now self.new }
        ensures join { OnOk result (IsValid bounds.now self.old → IsValid bounds.now other.now
            → IsJoin value_below (IsValid bounds.now) self.old other.now self.new) }
        ensures changed { IfOk result (λ changed. TellsChange changed self.old self.new) }
        ensures formed { OnOk result (IsValue self.old → IsValue other.now → IsValue self.new) }
        ensures least { OnOk result (IsValue self.old → IsValue other.now
            → IsLeast value_below (IsValid bounds.now) self.old other.now self.new) }
        ensures ranges { IsValue self.old → IsValue other.now
            → IsJoin value_below (IsValid bounds.now) self.old other.now self.new }
    {
        bounds.are_bounds();
        let before = *self;
        let after = join_of(before, *other, bounds);
        *self = after;
        Ok(!same(after, before))
    }

    fn copy(&self) -> Result<Self, OutOfMemory> {
        Ok(*self)
    }

    ghost reflexive = { reflexive };

    ghost transitive = { transitive };

    ghost antisymmetric = { antisymmetric };

    ghost rank_falls = { rank_falls };

    ghost rank_strict = { rank_strict };
}

fn is_number(v: Value) -> bool
    ensures { IsTrue result ↔ IsNumber v }
{
    matches!(
        v,
        Value::Num | Value::Const(_) | Value::Below(_) | Value::Low(_) | Value::Both(_)
    )
}

// Whether a value is below `Below(k)`; the next two likewise.
fn is_under_below(k: u64, v: Value) -> bool
    ensures { IsTrue result ↔ under_below k v }
{
    match v {
        Value::Const(c) => c < k,
        Value::Below(j) => j <= k,
        Value::Both(_) => k == 2 * WHOLE,
        _ => false,
    }
}

fn is_under_low(k: u64, v: Value) -> bool
    ensures { IsTrue result ↔ under_low k v }
{
    match v {
        Value::Const(c) => c % WHOLE < k,
        Value::Below(j) | Value::Both(j) | Value::Low(j) => j <= k,
        _ => false,
    }
}

fn is_under_both(k: u64, v: Value) -> bool
    ensures { IsTrue result ↔ under_both k v }
{
    match v {
        Value::Const(c) => c < 2 * WHOLE && c % WHOLE < k,
        Value::Below(j) | Value::Both(j) => j <= k,
        _ => false,
    }
}

fn is_under_heap(v: Value) -> bool
    ensures { IsTrue result ↔ under_heap v }
{
    matches!(v, Value::HeapBase | Value::HeapAddr)
}

fn is_mark_below(m: Option<(u32, u64)>, mark: Option<(u32, u64)>) -> bool
    ensures { IsTrue result ↔ mark_below m mark }
{
    mark.is_none() || m == mark
}

fn is_under_index(k: u64, mark: Option<(u32, u64)>, v: Value) -> bool
    ensures { IsTrue result ↔ under_index k mark v }
{
    match v {
        Value::Index16 { k: j, mark: other } => j <= k && is_mark_below(other, mark),
        _ => false,
    }
}

fn is_under_pointer(t: u32, v: Value) -> bool
    ensures { IsTrue result ↔ under_pointer t v }
{
    match v {
        Value::EntryPtr(u) => u == t,
        Value::EntryTyped { table, tag: _ } => table == t,
        _ => false,
    }
}

fn is_under_jump_off(a: u64, k: u64, v: Value) -> bool
    ensures { IsTrue result ↔ under_jump_off a k v }
{
    match v {
        Value::JumpOff { a: b, k: j } => b == a && j <= k,
        _ => false,
    }
}

fn is_under_jump_dest(a: u64, k: u64, v: Value) -> bool
    ensures { IsTrue result ↔ under_jump_dest a k v }
{
    match v {
        Value::JumpDest { a: b, k: j } => b == a && j <= k,
        _ => false,
    }
}
