ghost use Rattle.std.specs.Prelude.{◌≡◌, ◌+◌, ◌-◌, ◌*◌, ◌%◌, ◌^◌, ◌<◌, ◌≤◌, ◌⊎◌, nat_lt, if◌then◌else◌};
ghost use Rattle.vw_bits.specs.Words.{sign_extended, next_draw};

/// a + b modulo 2^64.
pub fn sum(a: u64, b: u64) -> u64
    ensures { result ≡ (a + b) % 2 ^ 64 }
{
    a.wrapping_add(b)
}

/// One draw of a linear congruential generator modulo 2^64: x times 6364136223846793005, and 1442695040888963407 more
/// (Knuth, The Art of Computer Programming, volume 2, 3.3.4, the multiplier of MMIX). The high bits are the better ones.
/// Takes no memory.
pub fn draw(x: u64) -> u64
    ensures { result ≡ next_draw x }
{
    x.wrapping_mul(6364136223846793005)
        .wrapping_add(1442695040888963407)
}

/// The low 32 bits of a word.
pub fn low32(v: u64) -> u64
    ensures { result ≡ v % 2 ^ 32 }
{
    v % 0x1_0000_0000
}

/// The word whose low `bytes` bytes are those of `v`, extended with copies of their highest bit;
/// `bytes` is 1, 2, 4 or 8.
pub fn sign_extend(v: u64, bytes: u32) -> u64
    requires { (bytes ≡ 1) ⊎ (bytes ≡ 2) ⊎ (bytes ≡ 4) ⊎ (bytes ≡ 8) }
    ensures { result ≡ sign_extended v bytes }
{
    match bytes {
        1 => extend_from(v % 0x100, 0x80),
        2 => extend_from(v % 0x1_0000, 0x8000),
        4 => extend_from(v % 0x1_0000_0000, 0x8000_0000),
        _ => v,
    }
}

fn extend_from(low: u64, half: u64) -> u64
    requires { (low < 2 * half) × (2 * half ≤ 2 ^ 32) }
    ensures { result ≡ (if nat_lt low half then low else low + (2 ^ 64 - 2 * half)) }
{
    if low < half {
        low
    } else {
        low + (u64::MAX - (2 * half - 1))
    }
}
