ghost use Rattle.std.specs.Prelude.{◌≡◌, ◌<◌, Some};
ghost use Rattle.vw_rows.specs.Layout.{has_modrm};
ghost use Rattle.vw_encode.specs.search.Normal.{reads_w, reads_r, reads_b, is_byte, extends_byte, reads_byte, read_bit, lean_bits, is_lean};

use vw_insn::Width;
use vw_rows::{Kind, Operands, Row, Sizing, has_modrm};

/// Whether each set bit of REX is one that the row reads, and there is one, or REX is needed for itself.
pub(crate) fn is_lean(row: Row, bits: u8) -> bool
    ensures { result ≡ is_lean row (Some bits) }
{
    lean_bits(row, bits) == bits && (reads_byte(row) || bits != 0)
}

fn lean_bits(row: Row, bits: u8) -> u8
    ensures { result ≡ lean_bits (reads_w row.width) (reads_r row.operands)
        (has_modrm row.operands) (reads_b row.operands) bits }
{
    let w = read_bit(reads_w(row.width), bits / 8 % 2);
    let r = read_bit(reads_r(row.operands), bits / 4 % 2);
    let x = read_bit(has_modrm(row.operands), bits / 2 % 2);
    let b = read_bit(reads_b(row.operands), bits % 2);
    w * 8 + r * 4 + x * 2 + b
}

fn read_bit(is_read: bool, bit: u8) -> u8
    requires { bit < 2 }
    ensures is { result ≡ read_bit is_read bit }
    ensures bound { result < 2 }
{
    if is_read { bit } else { 0 }
}

fn reads_w(sizing: Sizing) -> bool
    ensures { result ≡ reads_w sizing }
{
    match sizing {
        Sizing::V | Sizing::V32Or64 | Sizing::OnlyW | Sizing::Narrow | Sizing::Wide => true,
        Sizing::None | Sizing::B | Sizing::Q => false,
    }
}

fn reads_r(operands: Operands) -> bool
    ensures { result ≡ reads_r operands }
{
    matches!(operands, Operands::EG | Operands::GE | Operands::Xmm)
}

fn reads_b(operands: Operands) -> bool
    ensures { result ≡ reads_b operands }
{
    matches!(operands, Operands::OpcodeReg | Operands::WithoutRexB) || has_modrm(operands)
}

fn reads_byte(row: Row) -> bool
    ensures { result ≡ reads_byte row }
{
    is_byte(row.width) || extends_byte(row.kind)
}

fn is_byte(sizing: Sizing) -> bool
    ensures { result ≡ is_byte sizing }
{
    matches!(sizing, Sizing::B)
}

fn extends_byte(kind: Kind) -> bool
    ensures { result ≡ extends_byte kind }
{
    matches!(kind, Kind::Extend(_, Width::W8))
}
