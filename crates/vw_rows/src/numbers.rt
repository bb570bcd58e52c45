ghost use Rattle.std.specs.Prelude.{◌≡◌};
ghost use Rattle.vw_rows.specs.Numbers.{IsBytes, signed_of, byte_of, unsigned_of};

/// The number in two's complement of one, two or four bytes, the least significant first (SDM volume 2,
/// 2.2.1.3 and 2.2.1.5): a displacement or an immediate, before it is sign-extended to the operation's
/// width.
/// It is 0 where there are no bytes, or another number of them.
pub fn signed_of(bytes: &[u8]) -> i32
    ensures { result ≡ signed_of bytes.now }
{
    match bytes {
        [a] => i32::from(i8::from_le_bytes([*a])),
        [a, b] => i32::from(i16::from_le_bytes([*a, *b])),
        [a, b, c, d] => i32::from_le_bytes([*a, *b, *c, *d]),
        _ => 0,
    }
}

/// The number of one byte, and 0 where there is not one byte.
pub fn byte_of(bytes: &[u8]) -> u8
    ensures { result ≡ byte_of bytes.now }
{
    match bytes {
        [a] => *a,
        _ => 0,
    }
}

/// The unsigned number of eight bytes, the least significant first, and 0 where there are not eight.
pub fn unsigned_of(bytes: &[u8]) -> u64
    ensures { result ≡ unsigned_of bytes.now }
{
    match bytes {
        [a, b, c, d, e, f, g, h] => u64::from_le_bytes([*a, *b, *c, *d, *e, *f, *g, *h]),
        _ => 0,
    }
}

/// The same bytes, of which it is known that each is below 256: what a `u8` holds.
pub fn as_bytes(bytes: &[u8]) -> &[u8]
    ensures same { result.now ≡ bytes.now }
    ensures bytes { IsBytes result.now }
{
    bytes
}
