ghost use Rattle.std.specs.Prelude.{◌≡◌, ℕ, List, option_map};
ghost use Rattle.vw_rows.specs.Views.{modrm_view, optional_view};
ghost use Rattle.vw_decode.specs.Lexing.{split, first_of, next_of, row_at, sib_at, address_at, modrm_at, tail_at, read};
ghost use Rattle.vw_decode.specs.Views.{head_view, found_view};

use crate::head::{Head, head_at};
use vw_insn::Width;
use vw_rows::{
    Map, Modrm, Parts, Prefix, Row, displacement_length, has_fixed, has_modrm, immediate_length,
    rex_w, row_of, takes_sib, width_at,
};

// An instruction's row, width and parts, and the bytes behind it.
#[derive(Clone, Copy)]
pub(crate) struct Found<'a> {
    pub(crate) row: Row,
    pub(crate) width: Width,
    pub(crate) parts: Parts<'a>,
    pub(crate) rest: &'a [u8],
}

#[tactic(auto, unfolding(crate::specs::Lexing::read))]
pub(crate) fn read(bytes: &[u8]) -> Option<Found<'_>>
    ensures { option_map found_view result ≡ read bytes.now }
{
    let head = head_at(bytes)?;
    let next = first_of(head.rest);
    let row = row_at(head.prefix, head.map, head.opcode, next)?;
    tail_at(head, next, row)
}

// The first byte, and those behind it.
fn first_of(bytes: &[u8]) -> Option<(u8, &[u8])>
    ensures { option_map (λ n. (n.0, n.1.now)) result ≡ first_of bytes.now }
{
    match bytes {
        [] => None,
        [first, rest @ ..] => Some((*first, rest)),
    }
}

// The row of an instruction whose ModRM, if it has one, is the next byte.
fn row_at(prefix: Prefix, map: Map, opcode: u8, next: Option<(u8, &[u8])>) -> Option<Row>
    ensures { (bytes : List ℕ) → option_map (λ n. (n.0, n.1.now)) next.entry ≡ first_of bytes → result ≡ row_at prefix map opcode bytes }
{
    let byte = byte_or_zero(next);
    row_of(prefix, map, opcode, byte / 8 % 8, byte / 64 == 3)
}

fn byte_or_zero(next: Option<(u8, &[u8])>) -> u8
    ensures { (bytes : List ℕ) → option_map (λ n. (n.0, n.1.now)) next.entry ≡ first_of bytes → result ≡ next_of bytes }
{
    match next {
        None => 0,
        Some((byte, _)) => byte,
    }
}

#[tactic(auto, unfolding(crate::specs::Lexing::tail_at))]
fn tail_at<'a>(head: Head<'a>, next: Option<(u8, &'a [u8])>, row: Row) -> Option<Found<'a>>
    requires { option_map (λ n. (n.0, n.1.now)) next ≡ first_of (head_view head).rest }
    ensures { option_map found_view result ≡ tail_at (head_view head.entry) row }
{
    let width = width_at(row.width, head.prefix, rex_w(head.rex))?;
    let (modrm, rest) = modrm_at(has_modrm(row.operands), head.rest, next)?;
    let (imm, rest) = split(immediate_length(row.immediate, width), rest)?;
    let parts = Parts {
        prefix: head.prefix,
        rex: head.rex,
        map: head.map,
        opcode: head.opcode,
        modrm,
        imm,
    };
    if has_fixed(row.operands, &parts) {
        Some(Found {
            row,
            width,
            parts,
            rest,
        })
    } else {
        None
    }
}

// ModRM, whose first byte has been read; where there is none, the bytes are all still there.
fn modrm_at<'a>(
    is_there: bool,
    bytes: &'a [u8],
    next: Option<(u8, &'a [u8])>,
) -> Option<(Option<Modrm<'a>>, &'a [u8])>
    requires { option_map (λ n. (n.0, n.1.now)) next ≡ first_of bytes.now }
    ensures { option_map (λ m. (optional_view m.0, m.1.now)) result ≡ modrm_at is_there bytes.now }
{
    if !is_there {
        return Some((None, bytes));
    }
    match next {
        None => None,
        Some((byte, behind)) => {
            let (modrm, rest) = address_at(byte, behind)?;
            Some((Some(modrm), rest))
        }
    }
}

// The SIB and the displacement behind a ModRM byte.
fn address_at(byte: u8, bytes: &[u8]) -> Option<(Modrm<'_>, &[u8])>
    ensures { option_map (λ m. (modrm_view m.0, m.1.now)) result ≡ address_at byte bytes.now }
{
    let (sib, rest) = sib_at(takes_sib(byte), bytes)?;
    let (disp, rest) = split(displacement_length(byte, sib), rest)?;
    Some((Modrm { byte, sib, disp }, rest))
}

fn sib_at(is_there: bool, bytes: &[u8]) -> Option<(Option<u8>, &[u8])>
    ensures { option_map (λ s. (s.0, s.1.now)) result ≡ sib_at is_there bytes.now }
{
    if !is_there {
        return Some((None, bytes));
    }
    match bytes {
        [] => None,
        [sib, rest @ ..] => Some((Some(*sib), rest)),
    }
}

fn split(n: usize, bytes: &[u8]) -> Option<(&[u8], &[u8])>
    ensures { option_map (λ s. (s.0.now, s.1.now)) result ≡ split n bytes.now }
{
    if n <= bytes.len() {
        Some(bytes.split_at(n))
    } else {
        None
    }
}
