ghost use Rattle.std.specs.Prelude.{◌≡◌};
ghost use Rattle.vw_rows.specs.Layout.{has_modrm, variable_width, wide_width, width_at, takes_sib, without_base, displacement_length, iz_length, iv_length, immediate_length, has_fixed};
ghost use Rattle.vw_rows.specs.Views.{parts_view};

use crate::numbers::byte_of;
use crate::parts::{Parts, rex_b};
use crate::{Immediate, Operands, Prefix, Sizing};
use vw_insn::Width;

/// Whether an instruction with operands of this form has a ModRM byte.
pub fn has_modrm(operands: Operands) -> bool
    ensures { result ≡ has_modrm operands }
{
    matches!(
        operands,
        Operands::EG | Operands::GE | Operands::E | Operands::Xmm
    )
}

/// The width of an instruction with this legacy prefix and this REX.W (SDM volume 2, 2.2.1.2), 32 where
/// its row names none. `None` where they are not spelled together.
pub fn width_at(sizing: Sizing, prefix: Prefix, w: bool) -> Option<Width>
    ensures { result ≡ width_at sizing prefix w }
{
    match sizing {
        Sizing::None => Some(Width::W32),
        Sizing::B => Some(Width::W8),
        Sizing::V => variable_width(prefix, w),
        Sizing::V32Or64 => wide_width(variable_width(prefix, w)),
        Sizing::Q => Some(Width::W64),
        Sizing::OnlyW => { if w { Some(Width::W64) } else { None } }
        Sizing::Narrow => { if w { None } else { Some(Width::W32) } }
        Sizing::Wide => {
            if w {
                Some(Width::W64)
            } else {
                Some(Width::W32)
            }
        }
    }
}

fn variable_width(prefix: Prefix, w: bool) -> Option<Width>
    ensures { result ≡ variable_width prefix w }
{
    match (prefix, w) {
        (Prefix::P66, true) => None,
        (Prefix::P66, false) => Some(Width::W16),
        (_, true) => Some(Width::W64),
        (_, false) => Some(Width::W32),
    }
}

fn wide_width(width: Option<Width>) -> Option<Width>
    ensures { result ≡ wide_width width }
{
    match width {
        Some(Width::W32) => Some(Width::W32),
        Some(Width::W64) => Some(Width::W64),
        _ => None,
    }
}

/// Whether a SIB byte follows this ModRM byte (SDM volume 2, table 2-2).
pub fn takes_sib(byte: u8) -> bool
    ensures { result ≡ takes_sib byte }
{
    byte / 64 != 3 && byte % 8 == 4
}

/// Whether memory of this ModRM byte and SIB has no base register (SDM volume 2, tables 2-2 and 2-3).
pub fn without_base(byte: u8, sib: Option<u8>) -> bool
    ensures { result ≡ without_base byte sib }
{
    match sib {
        None => byte / 64 == 0 && byte % 8 == 5,
        Some(sib) => byte / 64 == 0 && sib % 8 == 5,
    }
}

/// How many bytes of displacement follow this ModRM byte and SIB: 0, 1 or 4 (SDM volume 2, tables 2-2
/// and 2-3).
pub fn displacement_length(byte: u8, sib: Option<u8>) -> usize
    ensures { result ≡ displacement_length byte sib }
{
    if byte / 64 == 1 {
        1
    } else if byte / 64 == 2 {
        4
    } else if without_base(byte, sib) {
        4
    } else {
        0
    }
}

/// How many bytes an immediate of this form has at the width, or the end of the opcode: 0, 1, 2, 4 or 8.
pub fn immediate_length(immediate: Immediate, w: Width) -> usize
    ensures { result ≡ immediate_length immediate w }
{
    match immediate {
        Immediate::None | Immediate::By1 | Immediate::Cl => 0,
        Immediate::Ib | Immediate::Ub | Immediate::Rel8 | Immediate::OpcodeByte => 1,
        Immediate::Iz => iz_length(w),
        Immediate::Rel32 => 4,
        Immediate::Iv => iv_length(w),
    }
}

fn iz_length(w: Width) -> usize
    ensures { result ≡ iz_length w }
{
    match w {
        Width::W16 => 2,
        Width::W8 | Width::W32 | Width::W64 => 4,
    }
}

fn iv_length(w: Width) -> usize
    ensures { result ≡ iv_length w }
{
    match w {
        Width::W16 => 2,
        Width::W64 => 8,
        Width::W8 | Width::W32 => 4,
    }
}

/// Whether what a row is not found by is as the operands want it: REX.B of 90, and the last byte of
/// F3 0F 1E FA.
pub fn has_fixed(operands: Operands, parts: &Parts<'_>) -> bool
    ensures { result ≡ has_fixed operands (parts_view parts.now) }
{
    match operands {
        Operands::WithoutRexB => rex_b(parts.rex) == 0,
        Operands::EndsInFa => byte_of(parts.imm) == 0xFA,
        _ => true,
    }
}
