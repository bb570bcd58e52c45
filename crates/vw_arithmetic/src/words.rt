//! Values, widths and numbers as words of a line.

use std::alloc::{AllocError, Global};
use vw_insn::Width;
use vw_values::{Value, Via};

/// A number in hexadecimal.
pub fn number(text: &str) -> Option<u64> {
    u64::from_str_radix(text, 16).ok()
}

/// A width in bits, in decimal.
pub fn width(text: &str) -> Option<Width> {
    match text {
        "8" => Some(Width::W8),
        "16" => Some(Width::W16),
        "32" => Some(Width::W32),
        "64" => Some(Width::W64),
        _ => None,
    }
}

fn named(word: &str) -> Option<Value> {
    match word {
        "any" => Some(Value::Any),
        "number" => Some(Value::Num),
        "heap" => Some(Value::HeapBase),
        "heap+32" => Some(Value::HeapAddr),
        "globals" => Some(Value::Globals),
        _ => None,
    }
}

fn of_one(name: &str, n: u64) -> Option<Value> {
    match name {
        "const" => Some(Value::Const(n)),
        "below" => Some(Value::Below(n)),
        "low" => Some(Value::Low(n)),
        "both" => Some(Value::Both(n)),
        "entry" => Some(Value::Entry(u8::try_from(n).ok()?)),
        "image" => Some(Value::Image(n)),
        "index" => Some(Value::Index16 { k: n, mark: None }),
        "pointer" => Some(Value::EntryPtr(u32::try_from(n).ok()?)),
        _ => None,
    }
}

fn of_two(name: &str, m: u64, n: u64) -> Option<Value> {
    let table = u32::try_from(m).ok();
    match name {
        "index" => Some(Value::Index16 {
            k: m,
            mark: Some((0, n)),
        }),
        "pointer" => Some(Value::EntryTyped {
            table: table?,
            tag: n,
        }),
        "tag-at" => Some(Value::TagOf {
            table: table?,
            via: Via::At(u8::try_from(n).ok()?),
        }),
        "tag-index" => Some(Value::TagOf {
            table: table?,
            via: Via::Idx(u8::try_from(n).ok()?),
        }),
        "function" => Some(Value::TableFn {
            table: table?,
            tag: n,
        }),
        "offset" => Some(Value::JumpOff { a: m, k: n }),
        "place" => Some(Value::JumpDest { a: m, k: n }),
        _ => None,
    }
}

/// A value: a name, and behind colons one or two numbers.
pub fn value(alloc: Global, word: &str) -> Result<Option<Value>, AllocError> {
    let parts = word.split(':').collect::<Vec<&str>>(alloc)?;
    Ok(match parts.as_slice() {
        [name] => named(*name),
        [name, n] => match number(*n) {
            Some(n) => of_one(*name, n),
            None => None,
        },
        [name, m, n] => match (number(*m), number(*n)) {
            (Some(m), Some(n)) => of_two(*name, m, n),
            _ => None,
        },
        _ => None,
    })
}
