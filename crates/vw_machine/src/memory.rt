//! The bytes of the stack, by address.

ghost use Rattle.std.specs.Prelude.{◌≡◌, ◌≢◌, ℕ, ◌+◌, ◌-◌, ◌/◌, ◌%◌, ◌^◌, ◌<◌, ◌≤◌, ◌&&◌, nat_le, nat_lt, IsSome, OnOk, false, length, slice_index};
ghost use Rattle.std.specs.BTreeMap.{get};
ghost use Rattle.std.specs.Ordering.{nat_cmp};
ghost use Rattle.vw_bits.specs.Fields.{load};
ghost use Rattle.vw_machine.specs.Kept.{byte_in};

use std::collections::BTreeMap;
use vw_bits::{OutOfMemory, read_u64};

// The byte at an address.
pub(crate) fn byte_in(bytes: &BTreeMap<u64, u8>, at: u64) -> u8
    ensures { result ≡ byte_in bytes.now at }
{
    match bytes.get(&at) {
        Some(byte) => *byte,
        None => 0,
    }
}

// The number that up to eight bytes spell, the least significant first.
pub(crate) fn number_in(bytes: &BTreeMap<u64, u8>, at: u64, size: u32) -> u64
    requires short { size ≤ 8 }
    requires inside { at + size ≤ 2 ^ 64 }
    ensures { result ≡ load (byte_in bytes.now) at size }
{
    let mut word = [0; 8];
    for k in 0..size as usize {
        word[k] = byte_in(bytes, at + k as u64);
    }
    read_u64(&word, 0).unwrap()
}

// Makes room for the bytes from `from` to, and without, `to`, so that none of them needs memory afterwards. No byte
// changes, also where memory is refused.
pub(crate) fn make_room(
    bytes: &mut BTreeMap<u64, u8>,
    from: u64,
    to: u64,
) -> Result<(), OutOfMemory>
    ensures same { (q : ℕ) → byte_in bytes.new q ≡ byte_in bytes.old q }
    ensures room { OnOk result ((q : ℕ) → from ≤ q → q < to → IsSome (get nat_cmp bytes.new q)) }
{
    for at in from..to {
        if !bytes.contains_key(&at) {
            bytes.insert(at, 0)?;
        }
    }
    Ok(())
}

// Puts a byte where there is room.
fn put_byte(bytes: &mut BTreeMap<u64, u8>, at: u64, byte: u8)
    requires { IsSome (get nat_cmp bytes.old at) }
    ensures byte { byte_in bytes.new at ≡ byte }
    ensures others { (q : ℕ) → q ≢ at → get nat_cmp bytes.new q ≡ get nat_cmp bytes.old q }
{
    if byte == 0 {
        bytes.remove(&at);
    } else {
        let _ = bytes.insert(at, byte);
    }
}

// Byte k of a number, the least significant first.
fn byte_of(value: u128, k: u64) -> u8
    ensures { result ≡ value / 256 ^ k % 256 }
{
    if k < 16 {
        ((value >> (8 * k)) % 256) as u8
    } else {
        0
    }
}

// Puts the bytes of a number whose first one is at `at`: those from `from` to, and without, `to`, where there is room.
pub(crate) fn put_number(bytes: &mut BTreeMap<u64, u8>, from: u64, to: u64, at: u64, value: u128)
    requires room { (q : ℕ) → from ≤ q → q < to → IsSome (get nat_cmp bytes.old q) }
    requires first { from < to → at ≤ from }
    ensures put { (q : ℕ) → from ≤ q → q < to → byte_in bytes.new q ≡ value / 256 ^ (q - at) % 256 }
    ensures others { (q : ℕ) → (nat_le from q && nat_lt q to) ≡ false → byte_in bytes.new q
        ≡ byte_in bytes.old q }
{
    for q in from..to {
        put_byte(bytes, q, byte_of(value, q - at));
    }
}

// Puts the bytes of a list downwards from the one below `top`: those from `from` to, and without, `to`, where there is
// room.
pub(crate) fn put_below(bytes: &mut BTreeMap<u64, u8>, from: u64, to: u64, top: u64, below: &[u8])
    requires room { (q : ℕ) → from ≤ q → q < to → IsSome (get nat_cmp bytes.old q) }
    requires under { from < to → to ≤ top }
    requires reached { from < to → top ≤ from + length below.now }
    ensures put { (q : ℕ) → from ≤ q → q < to → byte_in bytes.new q
        ≡ slice_index below.now (top - 1 - q) % 256 }
    ensures others { (q : ℕ) → (nat_le from q && nat_lt q to) ≡ false → byte_in bytes.new q
        ≡ byte_in bytes.old q }
{
    for q in from..to {
        put_byte(bytes, q, below[(top - 1 - q) as usize]);
    }
}
