//! What is known of the numbers that statements put into registers.

ghost use Rattle.std.specs.Prelude.{◌≡◌, ◌≤◌, ◌+◌, ◌%◌, ◌^◌, ℕ, length};
ghost use Rattle.vw_insn.specs.Words.{number, word_of};
ghost use Rattle.vw_values.specs.Joins.{join};
ghost use Rattle.vw_values.specs.Narrowing.{any_number};
ghost use Rattle.vw_values.specs.Scales.{scale};
ghost use Rattle.vw_values.specs.Sums.{add};
ghost use Rattle.vw_domain.specs.Abstract.{abstract_of};
ghost use Rattle.vw_domain.specs.Addresses.{signed, value_of};
ghost use Rattle.vw_domain.specs.Statements.{small, moved_by, moved, lea_offset_of, lea_offset_by, lea_offset, offset_of_both, chosen_offset, sum_value, plus_disp, lea_by, lea_value, chosen_value};
ghost use Rattle.vw_state.specs.Context.{equation_site};

use crate::Site;
use crate::registers::{displacement, known_of};
use vw_domain::State;
use vw_insn::{Base, Mem, Reg, Width, word_of};
use vw_lattice::Lattice;
use vw_stack::Offset;
use vw_stmt::Var;
use vw_values::{Bounds, Value, add, narrow, narrow32, scale, subtract};

// ---- distances from the value of rsp at the function's entry

// A word as a signed number.
fn signed(word: u64) -> i128
    ensures { result ≡ signed word }
{
    if word < 0x8000_0000_0000_0000 {
        word as i128
    } else {
        word as i128 - 0x1_0000_0000_0000_0000
    }
}

// The distance, where it is at most 2^31 in size.
fn small(distance: i128) -> Offset
    ensures { result ≡ small distance }
{
    if -0x8000_0000 <= distance && distance <= 0x8000_0000 {
        Offset::Known(distance as i64)
    } else {
        Offset::Unknown
    }
}

// A distance and a value that is added, or subtracted where `minus`.
fn moved_by(minus: bool, distance: i64, value: Value) -> Offset
    ensures { result ≡ moved_by minus distance value }
{
    match value {
        Value::Const(number) => {
            let by = signed(number);
            if minus {
                small(distance as i128 - by)
            } else {
                small(distance as i128 + by)
            }
        }
        _ => Offset::Unknown,
    }
}

pub fn moved(minus: bool, offset: Offset, value: Value) -> Offset
    ensures { result ≡ moved minus offset value }
{
    match offset {
        Offset::Unknown => Offset::Unknown,
        Offset::Known(distance) => moved_by(minus, distance, value),
    }
}

fn lea_offset_of(offset: Offset, disp: i32) -> Offset
    ensures { result ≡ lea_offset_of offset disp }
{
    match offset {
        Offset::Unknown => Offset::Unknown,
        Offset::Known(distance) => small(distance as i128 + disp as i128),
    }
}

fn lea_offset_by(state: &State, base: Base, index: Option<(Reg, u8)>, disp: i32) -> Offset
    ensures { result ≡ lea_offset_by (abstract_of state.now) base index disp }
{
    match base {
        Base::Reg(reg) => match index {
            None => lea_offset_of(known_of(state, Var::Reg(reg)).offset, disp),
            Some(_) => Offset::Unknown,
        },
        _ => Offset::Unknown,
    }
}

// Of the address of a memory operand.
pub fn lea_offset(state: &State, mem: &Mem) -> Offset
    ensures { result ≡ lea_offset (abstract_of state.now) mem.now }
{
    lea_offset_by(state, mem.base, mem.index, displacement(mem))
}

fn offset_of_both(a: Offset, b: Offset) -> Offset
    ensures { result ≡ offset_of_both a b }
{
    match (a, b) {
        (Offset::Known(c), Offset::Known(d)) => {
            if c == d {
                Offset::Known(c)
            } else {
                Offset::Unknown
            }
        }
        (Offset::Unknown, _) | (Offset::Known(_), Offset::Unknown) => Offset::Unknown,
    }
}

// A choice of less than the whole word tells no distance.
pub fn chosen_offset(width: Width, a: Offset, b: Offset) -> Offset
    ensures { result ≡ chosen_offset width a b }
{
    match width {
        Width::W64 => offset_of_both(a, b),
        Width::W8 | Width::W16 | Width::W32 => Offset::Unknown,
    }
}

// ---- values

pub fn sum_value(site: &Site, minus: bool, a: Value, b: Value) -> Value
    requires { length site.now.tables.now ≤ 64 }
    ensures { (next : ℕ) → result ≡ sum_value (equation_site site.now next) minus a b }
{
    if minus {
        subtract(a, b, site.tables)
    } else {
        add(a, b, site.tables)
    }
}

// A displacement of 0 leaves the value.
fn plus_disp(site: &Site, value: Value, disp: i32) -> Value
    requires { length site.now.tables.now ≤ 64 }
    ensures { (next : ℕ) → result ≡ plus_disp (equation_site site.now next) value disp }
{
    if disp == 0 {
        value
    } else {
        add(value, Value::Const(word_of(disp)), site.tables)
    }
}

// The address behind the instruction and a displacement, modulo 2^64.
fn behind(site: &Site, next: u32, disp: i32) -> u64
    ensures { result ≡ ((site.now.entry + next) + word_of disp) % 2 ^ 64 }
{
    site.entry
        .wrapping_add(next as u64)
        .wrapping_add(word_of(disp))
}

fn scaled(state: &State, index: (Reg, u8)) -> Value
    ensures { result ≡ scale (value_of (abstract_of state.now) (number index.0)) index.1 }
{
    scale(known_of(state, Var::Reg(index.0)).value, index.1)
}

// Of a memory operand without its displacement.
fn base_and_index(site: &Site, state: &State, reg: Reg, index: (Reg, u8)) -> Value
    requires { length site.now.tables.now ≤ 64 }
    ensures { result ≡ add (value_of (abstract_of state.now) (number reg))
        (scale (value_of (abstract_of state.now) (number index.0)) index.1) site.now.tables.now }
{
    let base = known_of(state, Var::Reg(reg)).value;
    add(base, scaled(state, index), site.tables)
}

fn lea_by(
    site: &Site,
    next: u32,
    state: &State,
    disp: i32,
    base: Base,
    index: Option<(Reg, u8)>,
) -> Value
    requires { length site.now.tables.now ≤ 64 }
    ensures { result ≡ lea_by (equation_site site.now next) (abstract_of state.now) disp base index }
{
    match base {
        Base::Rip => Value::Image(behind(site, next, disp)),
        Base::None => match index {
            None => Value::Const(word_of(disp)),
            Some(index) => plus_disp(site, scaled(state, index), disp),
        },
        Base::Reg(reg) => match index {
            None => plus_disp(site, known_of(state, Var::Reg(reg)).value, disp),
            Some(index) => plus_disp(site, base_and_index(site, state, reg, index), disp),
        },
    }
}

// The address of a memory operand.
pub fn lea_value(site: &Site, next: u32, state: &State, mem: &Mem) -> Value
    requires { length site.now.tables.now ≤ 64 }
    ensures { result ≡ lea_value (equation_site site.now next) (abstract_of state.now) mem.now }
{
    lea_by(site, next, state, displacement(mem), mem.base, mem.index)
}

// The least value above both.
fn joined(a: Value, b: Value, bounds: &Bounds) -> Value
    ensures { result ≡ join bounds.now a b }
{
    let mut value = a;
    let _changed = value.join(&b, bounds);
    value
}

pub fn chosen_value(site: &Site, width: Width, a: Value, b: Value) -> Value
    ensures { (next : ℕ) → result ≡ chosen_value (equation_site site.now next) width a b }
{
    match width {
        Width::W8 | Width::W16 => Value::Num,
        Width::W32 => joined(narrow32(a), narrow32(b), site.bounds),
        Width::W64 => joined(a, b, site.bounds),
    }
}

// Any number of a width: what is left of the bits of any word that are extended by their sign.
pub fn any_number(width: Width) -> Value
    ensures { result ≡ any_number width }
{
    narrow(Value::Any, Width::W8, width, true)
}
