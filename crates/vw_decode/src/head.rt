ghost use Rattle.std.specs.Prelude.{◌≡◌, option_map};
ghost use Rattle.vw_decode.specs.Lexing.{prefix_at, rex_at, opcode_at, second_byte, third_byte, head_at};
ghost use Rattle.vw_decode.specs.Views.{head_view};

use vw_rows::{Map, Prefix};

// What stands in front of the opcode, the opcode, and the bytes behind it (SDM volume 2, 2.1 and 2.2.1).
#[derive(Clone, Copy)]
pub(crate) struct Head<'a> {
    pub(crate) prefix: Prefix,
    pub(crate) rex: Option<u8>,
    pub(crate) map: Map,
    pub(crate) opcode: u8,
    pub(crate) rest: &'a [u8],
}

pub(crate) fn head_at(bytes: &[u8]) -> Option<Head<'_>>
    ensures { option_map head_view result ≡ head_at bytes.now }
{
    let (prefix, rest) = prefix_at(bytes);
    let (rex, rest) = rex_at(rest);
    let (map, opcode, rest) = opcode_at(rest)?;
    Some(Head {
        prefix,
        rex,
        map,
        opcode,
        rest,
    })
}

// The legacy prefix: one of 66, F2 and F3 at most.
fn prefix_at(bytes: &[u8]) -> (Prefix, &[u8])
    ensures { (result.0, result.1.now) ≡ prefix_at bytes.now }
{
    match bytes {
        [] => (Prefix::Plain, bytes),
        [first, rest @ ..] => {
            if *first == 0x66 {
                (Prefix::P66, rest)
            } else if *first == 0xF2 {
                (Prefix::PF2, rest)
            } else if *first == 0xF3 {
                (Prefix::PF3, rest)
            } else {
                (Prefix::Plain, bytes)
            }
        }
    }
}

// The bits of REX, 40 to 4F.
fn rex_at(bytes: &[u8]) -> (Option<u8>, &[u8])
    ensures { (result.0, result.1.now) ≡ rex_at bytes.now }
{
    match bytes {
        [] => (None, bytes),
        [first, rest @ ..] => {
            if *first / 16 == 4 {
                (Some(*first % 16), rest)
            } else {
                (None, bytes)
            }
        }
    }
}

// The opcode: its map, and its last byte.
fn opcode_at(bytes: &[u8]) -> Option<(Map, u8, &[u8])>
    ensures { option_map (λ o. (o.0, o.1, o.2.now)) result ≡ opcode_at bytes.now }
{
    match bytes {
        [] => None,
        [first, rest @ ..] => {
            if *first == 0x0F {
                second_byte(rest)
            } else {
                Some((Map::One, *first, rest))
            }
        }
    }
}

fn second_byte(bytes: &[u8]) -> Option<(Map, u8, &[u8])>
    ensures { option_map (λ o. (o.0, o.1, o.2.now)) result ≡ second_byte bytes.now }
{
    match bytes {
        [] => None,
        [second, rest @ ..] => {
            if *second == 0x3A {
                third_byte(rest)
            } else {
                Some((Map::Two, *second, rest))
            }
        }
    }
}

fn third_byte(bytes: &[u8]) -> Option<(Map, u8, &[u8])>
    ensures { option_map (λ o. (o.0, o.1, o.2.now)) result ≡ third_byte bytes.now }
{
    match bytes {
        [] => None,
        [third, rest @ ..] => Some((Map::Three, *third, rest)),
    }
}
