ghost use Rattle.std.specs.Prelude.{◌≡◌, ◌<◌};
ghost use Rattle.vw_rows.specs.Parts.{rex_w, rex_r, rex_x, rex_b};

use crate::{Map, Prefix};

/// A ModRM byte, and the SIB and the displacement behind it (SDM volume 2, 2.1.3 and 2.1.4).
#[derive(Clone, Copy, Debug)]
pub struct Modrm<'a> {
    pub byte: u8,
    pub sib: Option<u8>,
    /// None, one or four bytes.
    pub disp: &'a [u8],
}

/// The parts of an instruction in their order (SDM volume 2, figure 2-1 and 2.2.1).
#[derive(Clone, Copy, Debug)]
pub struct Parts<'a> {
    pub prefix: Prefix,
    /// The bits W, R, X and B of the REX byte, which are 8, 4, 2 and 1.
    pub rex: Option<u8>,
    pub map: Map,
    /// The opcode's last byte, but of F3 0F 1E FA the one before it.
    pub opcode: u8,
    pub modrm: Option<Modrm<'a>>,
    /// The immediate, none, one, two, four or eight bytes, or the last byte of F3 0F 1E FA.
    pub imm: &'a [u8],
}

/// REX.W, which is not set where there is no REX (SDM volume 2, table 2-4).
pub fn rex_w(rex: Option<u8>) -> bool
    ensures { result ≡ rex_w rex }
{
    match rex {
        None => false,
        Some(bits) => bits / 8 % 2 == 1,
    }
}

/// REX.R, 0 or 1.
pub fn rex_r(rex: Option<u8>) -> u8
    ensures is { result ≡ rex_r rex }
    ensures bit { result < 2 }
{
    match rex {
        None => 0,
        Some(bits) => bits / 4 % 2,
    }
}

/// REX.X, 0 or 1.
pub fn rex_x(rex: Option<u8>) -> u8
    ensures is { result ≡ rex_x rex }
    ensures bit { result < 2 }
{
    match rex {
        None => 0,
        Some(bits) => bits / 2 % 2,
    }
}

/// REX.B, 0 or 1.
pub fn rex_b(rex: Option<u8>) -> u8
    ensures is { result ≡ rex_b rex }
    ensures bit { result < 2 }
{
    match rex {
        None => 0,
        Some(bits) => bits % 2,
    }
}
