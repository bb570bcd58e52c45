ghost use Rattle.std.specs.Prelude.{◌≡◌, ℕ, List, [], ◌∷◌};
ghost use Rattle.vw_rows.specs.Parts.{prefix_bytes, rex_bytes, opcode_bytes, sib_bytes, modrm_bytes, bytes_of};
ghost use Rattle.vw_rows.specs.Layout.{IsRex};
ghost use Rattle.vw_rows.specs.Views.{optional_view, parts_view};
ghost use Rattle.vw_encode.specs.search.Buffer.{Holds, Pushed};

use vw_rows::{Map, Modrm, Parts, Prefix};

/// The bytes of an instruction.
#[derive(Clone, Copy, Debug, PartialEq, Eq)]
pub struct Spelled {
    /// How many bytes there are, 1 to 15.
    pub len: u8,
    /// The bytes, and 0 behind them.
    pub bytes: [u8; 15],
}

// The bytes of the parts, where they are 15 or fewer.
pub(crate) fn write_parts(parts: &Parts<'_>) -> Option<Spelled>
    requires { IsRex parts.now.rex }
    ensures { Pushed [] (bytes_of (parts_view parts.now)) result }
{
    let empty = Spelled {
        len: 0,
        bytes: [0; 15],
    };
    let with_prefix = push_prefix(empty, parts.prefix)?;
    let with_rex = push_rex(with_prefix, parts.rex)?;
    let with_opcode = push_opcode(with_rex, parts.map, parts.opcode)?;
    let with_modrm = push_modrm(with_opcode, parts.modrm)?;
    push_all(with_modrm, parts.imm)
}

fn push_prefix(s: Spelled, prefix: Prefix) -> Option<Spelled>
    ensures { (xs : List ℕ) → Holds s xs → Pushed xs (prefix_bytes prefix) result }
{
    match prefix {
        Prefix::Plain => Some(s),
        Prefix::P66 => push(s, 0x66),
        Prefix::PF2 => push(s, 0xF2),
        Prefix::PF3 => push(s, 0xF3),
    }
}

fn push_rex(s: Spelled, rex: Option<u8>) -> Option<Spelled>
    requires { IsRex rex }
    ensures { (xs : List ℕ) → Holds s xs → Pushed xs (rex_bytes rex) result }
{
    match rex {
        None => Some(s),
        Some(bits) => push(s, 0x40 + bits),
    }
}

fn push_opcode(s: Spelled, map: Map, opcode: u8) -> Option<Spelled>
    ensures { (xs : List ℕ) → Holds s xs → Pushed xs (opcode_bytes map opcode) result }
{
    match map {
        Map::One => push(s, opcode),
        Map::Two => push_all(s, &[0x0F, opcode]),
        Map::Three => push_all(s, &[0x0F, 0x3A, opcode]),
    }
}

fn push_modrm(s: Spelled, modrm: Option<Modrm<'_>>) -> Option<Spelled>
    ensures { (xs : List ℕ) → Holds s xs → Pushed xs (modrm_bytes (optional_view modrm.entry)) result }
{
    match modrm {
        None => Some(s),
        Some(m) => {
            let with_byte = push(s, m.byte)?;
            let with_sib = push_sib(with_byte, m.sib)?;
            push_all(with_sib, m.disp)
        }
    }
}

fn push_sib(s: Spelled, sib: Option<u8>) -> Option<Spelled>
    ensures { (xs : List ℕ) → Holds s xs → Pushed xs (sib_bytes sib) result }
{
    match sib {
        None => Some(s),
        Some(sib) => push(s, sib),
    }
}

fn push_all(s: Spelled, bytes: &[u8]) -> Option<Spelled>
    ensures { (xs : List ℕ) → Holds s xs → Pushed xs bytes.now result }
{
    let mut all = s;
    for byte in bytes {
        all = push(all, *byte)?;
    }
    Some(all)
}

#[tactic(auto, using(crate::proofs::Buffers::bytes_set))]
fn push(s: Spelled, byte: u8) -> Option<Spelled>
    ensures { (xs : List ℕ) → Holds s xs → Pushed xs (byte ∷ []) result }
{
    if s.len >= 15 {
        return None;
    }
    let mut pushed = s;
    pushed.bytes[s.len as usize] = byte;
    pushed.len += 1;
    Some(pushed)
}
