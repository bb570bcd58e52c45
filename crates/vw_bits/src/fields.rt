ghost use Rattle.std.specs.Prelude.{◌≡◌, ◌+◌, ◌≤◌, ◌↔◌, length, drop, IfOk, IfErr, IsOk};
ghost use Rattle.vw_bits.specs.Fields.{field};

use byteorder::{ByteOrder, LittleEndian};
use thiserror::Error;

/// A field that does not lie wholly in the bytes, by its offset.
#[derive(Clone, Copy, Debug, PartialEq, Eq, Error)]
#[error("the field at {at} leaves the bytes")]
pub struct Short {
    pub at: u64,
}

/// The two bytes at `at` as a number, the least significant first. Short, with `at`, exactly where
/// they do not lie wholly in `bytes`.
pub fn read_u16(bytes: &[u8], at: u64) -> Result<u16, Short>
    ensures value { IfOk result (λ v. v ≡ field bytes.now at 2) }
    ensures inside { IsOk result ↔ (at + 2 ≤ length bytes.now) }
    ensures short { IfErr result (λ e. e.at ≡ at) }
{
    check_inside(bytes, at, 2)?;
    Ok(u16_at(bytes, at))
}

/// The four bytes at `at` as a number, the least significant first. Short, with `at`, exactly where
/// they do not lie wholly in `bytes`.
pub fn read_u32(bytes: &[u8], at: u64) -> Result<u32, Short>
    ensures value { IfOk result (λ v. v ≡ field bytes.now at 4) }
    ensures inside { IsOk result ↔ (at + 4 ≤ length bytes.now) }
    ensures short { IfErr result (λ e. e.at ≡ at) }
{
    check_inside(bytes, at, 4)?;
    Ok(u32_at(bytes, at))
}

/// The eight bytes at `at` as a number, the least significant first. Short, with `at`, exactly where
/// they do not lie wholly in `bytes`.
pub fn read_u64(bytes: &[u8], at: u64) -> Result<u64, Short>
    ensures value { IfOk result (λ v. v ≡ field bytes.now at 8) }
    ensures inside { IsOk result ↔ (at + 8 ≤ length bytes.now) }
    ensures short { IfErr result (λ e. e.at ≡ at) }
{
    check_inside(bytes, at, 8)?;
    Ok(u64_at(bytes, at))
}

// Ok where `size` bytes at `at` lie wholly in the bytes.
fn check_inside(bytes: &[u8], at: u64, size: u64) -> Result<(), Short>
    ensures inside { IsOk result ↔ (at + size ≤ length bytes.now) }
    ensures short { IfErr result (λ e. e.at ≡ at) }
{
    let len = bytes.len() as u64;
    if at > len || len - at < size {
        return Err(Short { at });
    }
    Ok(())
}

// The fields at offsets that are known to lie in the bytes.

#[tactic(auto, unfolding(crate::specs::Fields::field))]
pub(crate) fn u8_at(bytes: &[u8], at: u64) -> u8
    requires { at + 1 ≤ length bytes.now }
    ensures { result ≡ field bytes.now at 1 }
{
    bytes[at as usize]
}

pub(crate) fn u16_at(bytes: &[u8], at: u64) -> u16
    requires { at + 2 ≤ length bytes.now }
    ensures { result ≡ field bytes.now at 2 }
{
    LittleEndian::read_u16(from(bytes, at))
}

pub(crate) fn u32_at(bytes: &[u8], at: u64) -> u32
    requires { at + 4 ≤ length bytes.now }
    ensures { result ≡ field bytes.now at 4 }
{
    LittleEndian::read_u32(from(bytes, at))
}

pub(crate) fn u64_at(bytes: &[u8], at: u64) -> u64
    requires { at + 8 ≤ length bytes.now }
    ensures { result ≡ field bytes.now at 8 }
{
    LittleEndian::read_u64(from(bytes, at))
}

// The bytes from `at` on.
fn from(bytes: &[u8], at: u64) -> &[u8]
    requires { at ≤ length bytes.now }
    ensures { result.now ≡ drop at bytes.now }
{
    &bytes[at as usize..]
}
