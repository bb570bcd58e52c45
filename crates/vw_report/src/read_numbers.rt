ghost use Rattle.std.specs.Prelude.{◌≡◌, ℕ, ◌+◌, ◌-◌, ◌*◌, ◌^◌, ◌<◌, ◌≤◌, Option, Some, None, IfSome, pos, negsuc};
ghost use Rattle.std.specs.Fmt.{decimal};
ghost use Rattle.vw_report.specs.Items.{Reads, after};
ghost use Rattle.vw_report.specs.NumberItems.{number, more_digits, read_hex, nibble};
ghost use Rattle.vw_report.specs.Grammar.{hex16, hex8, magnitude, signed, minus_at, table};

// What stands after the literal.
pub fn behind<'a>(bytes: &'a [u8], literal: &[u8]) -> Option<&'a [u8]>
    ensures { Reads (λ rest. rest.now) result (after literal.now bytes.now) }
{
    let mut rest = bytes;
    for c in literal {
        match rest {
            [b, tail @ ..] => {
                if *b != *c {
                    return None;
                }
                rest = tail;
            }
            [] => return None,
        }
    }
    Some(rest)
}

fn digits_on(first: u64, bytes: &[u8]) -> Option<(u64, &[u8])>
    ensures { Reads (λ x. (x.0, x.1.now)) result (more_digits first bytes.now) }
{
    let mut n = first;
    let mut rest = bytes;
    while let [b, tail @ ..] = rest {
        let b = *b;
        if b < b'0' || b > b'9' {
            return Some((n, rest));
        }
        let d = (b - b'0') as u64;
        match n.checked_mul(10) {
            None => return None,
            Some(ten) => match ten.checked_add(d) {
                None => return None,
                Some(sum) => n = sum,
            },
        }
        rest = tail;
    }
    Some((n, rest))
}

// A number in decimal.
#[tactic(auto, unfolding(crate::specs::NumberItems::number))]
pub fn number_at(bytes: &[u8]) -> Option<(u64, &[u8])>
    ensures { Reads (λ x. (x.0, x.1.now)) result (number.read bytes.now) }
{
    match bytes {
        [] => None,
        [b, rest @ ..] => {
            let b = *b;
            if b < b'0' || b > b'9' {
                None
            } else if b == b'0' {
                Some((0, rest))
            } else {
                digits_on((b - b'0') as u64, rest)
            }
        }
    }
}

/// The number of which these bytes are the decimal digits, without a sign and without leading zeros. `None` exactly where
/// they are the digits of no number below 2^64. Takes no memory.
pub fn decimal_of(bytes: &[u8]) -> Option<u64>
    ensures are { IfSome result (λ n. bytes.now ≡ decimal n) }
    ensures all { (n : ℕ) → n < 2 ^ 64 → bytes.now ≡ decimal n → result ≡ Some n }
{
    match number_at(bytes) {
        None => None,
        Some((n, rest)) => { if rest.is_empty() { Some(n) } else { None } }
    }
}

fn nibble_of(b: u8) -> Option<u64>
    ensures gives { Reads (λ x. x) result (nibble b) }
    ensures small { IfSome result (λ d. d < 16) }
{
    match b {
        b'0'..=b'9' => Some((b - b'0') as u64),
        b'a'..=b'f' => Some((b - 87) as u64),
        _ => None,
    }
}

#[tactic(auto, unfolding(crate::specs::Grammar::table))]
pub fn table_at(bytes: &[u8]) -> Option<(u32, &[u8])>
    ensures { Reads (λ x. (x.0, x.1.now)) result (table.read bytes.now) }
{
    let (n, rest) = number_at(bytes)?;
    if n < 4294967296 {
        Some((n as u32, rest))
    } else {
        None
    }
}

#[tactic(auto, unfolding(crate::specs::Grammar::magnitude))]
fn magnitude_at(bytes: &[u8]) -> Option<(u64, &[u8])>
    ensures gives { Reads (λ x. (x.0, x.1.now)) result (magnitude.read bytes.now) }
    ensures small { IfSome result (λ x. x.0 ≤ 2 ^ 32) }
{
    let (n, rest) = number_at(bytes)?;
    if n <= 4294967296 {
        Some((n, rest))
    } else {
        None
    }
}

fn hex_digit_on(n: u64, bytes: &[u8]) -> Option<(u64, &[u8])>
    requires { n < 2 ^ 60 }
    ensures gives { Reads (λ x. (x.0, x.1.now)) result (read_hex 1 n bytes.now) }
    ensures small { IfSome result (λ x. x.0 < 16 * n + 16) }
{
    match bytes {
        [] => None,
        [b, rest @ ..] => {
            let d = nibble_of(*b)?;
            Some((n * 16 + d, rest))
        }
    }
}

// Digits go on a number, `count` of them.
fn hex_on(count: u32, bytes: &[u8]) -> Option<(u64, &[u8])>
    requires { count ≤ 16 }
    ensures { Reads (λ x. (x.0, x.1.now)) result (read_hex count 0 bytes.now) }
{
    let mut n: u64 = 0;
    let mut rest = bytes;
    for i in 0..count {
        let (more, tail) = hex_digit_on(n, rest)?;
        n = more;
        rest = tail;
    }
    Some((n, rest))
}

#[tactic(auto, unfolding(crate::specs::Grammar::hex16, crate::specs::NumberItems::digits_of_hex))]
pub fn hex16_at(bytes: &[u8]) -> Option<(u64, &[u8])>
    ensures { Reads (λ x. (x.0, x.1.now)) result (hex16.read bytes.now) }
{
    hex_on(16, bytes)
}

fn positive(n: u64) -> i64
    requires { n ≤ 2 ^ 32 }
    ensures { result ≡ pos n }
{
    n as i64
}

fn negative(n: u64) -> i64
    requires small { n ≤ 2 ^ 32 }
    requires some { 0 < n }
    ensures { result ≡ negsuc (n - 1) }
{
    -(n as i64)
}

fn minus_on(n: u64, rest: &[u8]) -> Option<(i64, &[u8])>
    requires { n ≤ 2 ^ 32 }
    ensures { Reads (λ x. (x.0, x.1.now)) result (minus_at n rest.now) }
{
    if n == 0 {
        None
    } else {
        Some((negative(n), rest))
    }
}

// A number with its sign.
#[tactic(auto, unfolding(crate::specs::Grammar::signed))]
pub fn signed_at(bytes: &[u8]) -> Option<(i64, &[u8])>
    ensures { Reads (λ x. (x.0, x.1.now)) result (signed.read bytes.now) }
{
    match bytes {
        [] => None,
        [b, rest @ ..] => {
            let b = *b;
            if b == b'+' {
                let (n, rest) = magnitude_at(rest)?;
                Some((positive(n), rest))
            } else if b == b'-' {
                let (n, rest) = magnitude_at(rest)?;
                minus_on(n, rest)
            } else {
                None
            }
        }
    }
}

#[tactic(auto, unfolding(crate::specs::Grammar::hex8, crate::specs::NumberItems::digits_of_hex))]
fn wide_hex8_at(bytes: &[u8]) -> Option<(u64, &[u8])>
    ensures { Reads (λ x. (x.0, x.1.now)) result (hex8.read bytes.now) }
{
    hex_on(8, bytes)
}

#[tactic(auto, using(crate::proofs::NumberLaws::hex8_small))]
pub fn hex8_at(bytes: &[u8]) -> Option<(u32, &[u8])>
    ensures { Reads (λ x. (x.0, x.1.now)) result (hex8.read bytes.now) }
{
    let (n, rest) = wide_hex8_at(bytes)?;
    if n < 4294967296 {
        Some((n as u32, rest))
    } else {
        None
    }
}
