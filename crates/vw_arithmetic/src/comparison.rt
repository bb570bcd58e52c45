//! Whether an operation's result is the expected one.

ghost use Rattle.std.specs.Prelude.{◌≤◌, length};
ghost use Rattle.vw_insn.specs.Listed.{IsWide};

use crate::words::{number, value, width};
use std::alloc::{AllocError, Global};
use vw_bits::OutOfMemory;
use vw_insn::Width;
use vw_lattice::Lattice;
use vw_values::{
    Bounds, TableList, Value, add, and, below, equal, narrow, narrow32, pow, scale, shl4, subtract,
};

/// The bounds and the tables that all lines speak of.
#[derive(Drop)]
pub struct Setting {
    bounds: Bounds,
    tables: TableList,
    ghost few: { length tables ≤ 64 },
}

impl Setting {
    /// The bounds 3 and 100 beside the powers of two, the tables at 0x5000 with four entries and at 0x6000 with two.
    pub fn new(alloc: Global) -> Result<Setting, OutOfMemory> {
        let bounds = Bounds::new(alloc, &[100, 0x1_0000_0001, 3, 0, 100])?;
        let mut tables = TableList::new(alloc);
        tables.push((0x5000, 4))?;
        tables.push((0x6000, 2))?;
        Ok(Setting { bounds, tables })
    }
}

// A result of an operation on numbers, as a value.
fn as_value(bound: Option<u64>) -> Option<Value> {
    match bound {
        None => None,
        Some(k) => Some(Value::Const(k)),
    }
}

fn of_number(setting: &Setting, name: &str, k: u64) -> Option<Option<Value>> {
    match name {
        "up" => Some(as_value(setting.bounds.up(k))),
        "power" => Some(as_value(pow(k))),
        _ => None,
    }
}

fn of_value(setting: &Setting, name: &str, v: Value) -> Option<Option<Value>> {
    match name {
        "times16" => Some(Some(shl4(v, &setting.bounds))),
        "low32" => Some(Some(narrow32(v))),
        _ => None,
    }
}

// The join, where it is valid, above both, and changed exactly where it differs.
fn join(setting: &Setting, a: Value, b: Value) -> Result<Option<Value>, OutOfMemory> {
    let mut join = a;
    let changed = join.join(&b, &setting.bounds)?;
    let above = a.leq(&join) && b.leq(&join);
    let valid = join.is_in_range() && join.fits(&setting.bounds);
    Ok(if above && valid && changed == (join != a) {
        Some(join)
    } else {
        None
    })
}

fn of_values(
    setting: &Setting,
    name: &str,
    a: Value,
    b: Value,
) -> Result<Option<Option<Value>>, OutOfMemory> {
    Ok(match name {
        "add" => Some(Some(add(a, b, &setting.tables))),
        "subtract" => Some(Some(subtract(a, b, &setting.tables))),
        "join" => Some(join(setting, a, b)?),
        _ => None,
    })
}

fn where_below(setting: &Setting, v: Value, bits: &str, k: u64) -> Option<Option<Value>> {
    match bits {
        "32" => Some(below(v, Width::W32, k, &setting.bounds)),
        "64" => Some(below(v, Width::W64, k, &setting.bounds)),
        _ => None,
    }
}

fn where_equal(setting: &Setting, v: Value, bits: &str, k: u64) -> Option<Option<Value>> {
    match bits {
        "32" => Some(equal(v, Width::W32, k, &setting.bounds)),
        "64" => Some(equal(v, Width::W64, k, &setting.bounds)),
        _ => None,
    }
}

fn multiple(v: Value, by: &str) -> Option<Option<Value>> {
    Some(Some(scale(v, u8::try_from(number(by)?).ok()?)))
}

fn extended(v: Value, from: &str, to: &str, signed: bool) -> Option<Option<Value>> {
    Some(Some(narrow(v, width(from)?, width(to)?, signed)))
}

fn masked(setting: &Setting, a: Value, b: Value, bits: &str) -> Option<Option<Value>> {
    Some(Some(and(a, b, width(bits)?, &setting.bounds)))
}

// What an operation gives. The outer `None` where the words are no operation, the inner where no value is left.
fn result(
    alloc: Global,
    setting: &Setting,
    words: &[&str],
) -> Result<Option<Option<Value>>, OutOfMemory> {
    let [name, first, rest @ ..] = words else {
        return Ok(None);
    };
    if let Some(k) = number(*first) {
        return Ok(of_number(setting, *name, k));
    }
    let Some(a) = value(alloc, *first)? else {
        return Ok(None);
    };
    Ok(match (*name, rest) {
        (_, []) => of_value(setting, *name, a),
        ("scale", [by]) => multiple(a, *by),
        (_, [second]) => match value(alloc, *second)? {
            Some(b) => of_values(setting, *name, a, b)?,
            None => None,
        },
        ("below", [bits, k]) => match number(*k) {
            Some(k) => where_below(setting, a, *bits, k),
            None => None,
        },
        ("equal", [bits, k]) => match number(*k) {
            Some(k) => where_equal(setting, a, *bits, k),
            None => None,
        },
        ("zeros", [from, to]) => extended(a, *from, *to, false),
        ("signs", [from, to]) => extended(a, *from, *to, true),
        ("and", [second, bits]) => match value(alloc, *second)? {
            Some(b) => masked(setting, a, b, *bits),
            None => None,
        },
        _ => None,
    })
}

// The expected value; the outer `None` where the word is none.
fn expected(alloc: Global, word: &str) -> Result<Option<Option<Value>>, AllocError> {
    if word == "none" {
        return Ok(Some(None));
    }
    Ok(match value(alloc, word)? {
        None => None,
        Some(v) => Some(Some(v)),
    })
}

/// Whether the operation of a line gives what the line says. `None` where the line is none.
pub fn is_as_expected(
    alloc: Global,
    setting: &Setting,
    text: &str,
) -> Result<Option<bool>, OutOfMemory> {
    let Some((front, want)) = text.split_once(" = ") else {
        return Ok(None);
    };
    let words = front.split(' ').collect::<Vec<&str>>(alloc)?;
    let want = expected(alloc, want)?;
    let found = result(alloc, setting, words.as_slice())?;
    Ok(match (found, want) {
        (Some(found), Some(want)) => Some(found == want),
        _ => None,
    })
}
