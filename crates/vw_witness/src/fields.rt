//! The fields of a line.

use std::alloc::{AllocError, Global};
use vw_effect::Flags;

fn digit(b: u8) -> Option<u8> {
    match b {
        b'0'..=b'9' => Some(b - b'0'),
        b'a'..=b'f' => Some(b - b'a' + 10),
        _ => None,
    }
}

/// A number in hexadecimal.
pub fn number(text: &str) -> Option<u64> {
    u64::from_str_radix(text, 16).ok()
}

fn byte(pair: &[u8]) -> Option<u8> {
    match pair {
        [high, low] => digit(*high)?.checked_mul(16)?.checked_add(digit(*low)?),
        _ => None,
    }
}

/// The bytes that pairs of digits spell.
pub fn bytes(alloc: Global, text: &str) -> Result<Vec<u8>, AllocError> {
    let mut found = Vec::new(alloc);
    for pair in text.as_bytes().chunks(2) {
        if let Some(b) = byte(pair) {
            found.push(b)?;
        }
    }
    Ok(found)
}

/// The number that bytes spell, the least significant first.
pub fn little_endian(bytes: &[u8]) -> u128 {
    let mut value: u128 = 0;
    for b in bytes.iter().rev() {
        value = value.wrapping_mul(256) | u128::from(*b);
    }
    value
}

/// The flags of a number: CF is 1, PF 2, ZF 4, SF 8, OF 16.
pub fn flags(text: &str) -> Option<Flags> {
    let bits = number(text)?;
    Some(Flags {
        carry: bits % 2 == 1,
        parity: bits / 2 % 2 == 1,
        is_zero: bits / 4 % 2 == 1,
        sign: bits / 8 % 2 == 1,
        overflow: bits / 16 % 2 == 1,
    })
}

/// Sixteen registers.
pub fn registers(fields: &[&str]) -> Option<[u64; 16]> {
    let mut found = [0; 16];
    for k in 0..16usize {
        found[k] = number(fields.get(k).copied()?)?;
    }
    Some(found)
}
