//! One instruction, with what a disassembler prints for it.

use std::alloc::{AllocError, Global};
use vw_effect::Access;

/// A line: the bytes of an instruction, what it reads and writes, and its text.
#[derive(Drop)]
pub struct Line {
    pub code: Vec<u8>,
    pub read: Option<Access>,
    pub write: Option<Access>,
    pub printed: String,
}

fn digit(b: u8) -> Option<u8> {
    match b {
        b'0'..=b'9' => Some(b - b'0'),
        b'a'..=b'f' => Some(b - b'a' + 10),
        _ => None,
    }
}

// A number in hexadecimal.
fn number(text: &str) -> Option<u64> {
    let mut value: u64 = 0;
    for b in text.as_bytes() {
        value = value.checked_mul(16)?.checked_add(u64::from(digit(*b)?))?;
    }
    Some(value)
}

fn byte(pair: &[u8]) -> Option<u8> {
    match pair {
        [high, low] => digit(*high)?.checked_mul(16)?.checked_add(digit(*low)?),
        _ => None,
    }
}

// The bytes that pairs of digits spell. `None` where one is no digit.
fn bytes(alloc: Global, text: &str) -> Result<Option<Vec<u8>>, AllocError> {
    let mut found = Vec::new(alloc);
    for pair in text.as_bytes().chunks(2) {
        match byte(pair) {
            None => return Ok(None),
            Some(b) => found.push(b)?,
        }
    }
    Ok(Some(found))
}

// An address and a size with a colon between. The outer `None` where it is neither that nor `-`.
fn access(text: &str) -> Option<Option<Access>> {
    if text == "-" {
        return Some(None);
    }
    let (at, size) = text.split_once(':')?;
    Some(Some(Access {
        at: number(at)?,
        size: u32::try_from(number(size)?).ok()?,
    }))
}

/// Reads a line. `None` where a field is missing or is no such field.
pub fn read_line(alloc: Global, text: &str) -> Result<Option<Line>, AllocError> {
    let Some((front, printed)) = text.split_once('|') else {
        return Ok(None);
    };
    let fields = front.split(' ').collect::<Vec<&str>>(alloc)?;
    if fields.len() != 4 {
        return Ok(None);
    }
    let code = bytes(alloc, fields[0])?;
    let (Some(code), Some(read), Some(write)) = (code, access(fields[1]), access(fields[2])) else {
        return Ok(None);
    };
    Ok(Some(Line {
        code,
        read,
        write,
        printed: String::from_str(alloc, printed.trim_start())?,
    }))
}
