ghost use Rattle.std.specs.Prelude.{◌≡◌, ◌<◌, IfSome};
ghost use Rattle.std.specs.Int.{w32, cast_unsigned, to_le_bytes};
ghost use Rattle.vw_encode.specs.search.Candidate.{operand_number, operand_memory, reg_field, digit_or_zero, rm_field, base_field, index_field, sib_field, modrm_byte, opcode_byte, immediate_block};
ghost use Rattle.vw_rows.specs.Layout.{IsRex};

use crate::asked::{Asked, place_memory, place_number, xmm_memory, xmm_number};
use vw_insn::{Base, Mem, Reg, Width};
use vw_rows::{Immediate, Operands, Pattern, Prefix, Row};

// What an instruction and its row leave open: the prefix, REX, the mod field of ModRM, and the scale
// field of the SIB, where there is a SIB.
#[derive(Clone, Copy)]
pub(crate) struct Choice {
    pub(crate) prefix: Prefix,
    pub(crate) rex: Option<u8>,
    pub(crate) mode: u8,
    pub(crate) scale: Option<u8>,
}

// The number of E, if it is a register.
fn operand_number(operands: Operands, asked: &Asked) -> u8
    ensures { result ≡ operand_number operands asked.now }
{
    match operands {
        Operands::EG | Operands::E => place_number(asked.first),
        Operands::GE => place_number(asked.second),
        Operands::Xmm => xmm_number(asked.rm),
        _ => 0,
    }
}

// The memory of E, if it is memory.
pub(crate) fn operand_memory(operands: Operands, asked: &Asked) -> Mem
    ensures { result ≡ operand_memory operands asked.now }
{
    match operands {
        Operands::GE => place_memory(asked.second),
        Operands::Xmm => xmm_memory(asked.rm),
        _ => place_memory(asked.first),
    }
}

// The reg field of ModRM: G, or the digit, or 0.
fn reg_field(operands: Operands, digit: Option<u8>, asked: &Asked) -> u8
    ensures is { result ≡ reg_field operands digit asked.now }
    ensures octal { result < 8 }
{
    match operands {
        Operands::EG => place_number(asked.second) % 8,
        Operands::GE => place_number(asked.first) % 8,
        Operands::Xmm => asked.reg % 8,
        _ => digit_or_zero(digit),
    }
}

fn digit_or_zero(digit: Option<u8>) -> u8
    ensures is { result ≡ digit_or_zero digit }
    ensures octal { result < 8 }
{
    match digit {
        None => 0,
        Some(n) => n % 8,
    }
}

// The field that names the base: 5 where there is none, and for rip.
fn base_field(base: Base) -> u8
    ensures is { result ≡ base_field base }
    ensures octal { result < 8 }
{
    match base {
        Base::Reg(reg) => reg.number() % 8,
        Base::None | Base::Rip => 5,
    }
}

// The field that names the index: 4 where there is none.
fn index_field(index: Option<(Reg, u8)>) -> u8
    ensures is { result ≡ index_field index }
    ensures octal { result < 8 }
{
    match index {
        None => 4,
        Some((reg, _)) => reg.number() % 8,
    }
}

fn rm_field(mode: u8, scale: Option<u8>, number: u8, mem: Mem) -> u8
    ensures is { result ≡ rm_field mode scale number mem }
    ensures octal { result < 8 }
{
    if mode == 3 {
        return number % 8;
    }
    match scale {
        None => base_field(mem.base),
        Some(_) => 4,
    }
}

/// The ModRM byte.
pub(crate) fn modrm_byte(row: Row, choice: Choice, asked: &Asked) -> u8
    requires { choice.mode < 4 }
    ensures { result ≡ modrm_byte row choice asked.now }
{
    let reg = reg_field(row.operands, row.pattern.digit, asked);
    let number = operand_number(row.operands, asked);
    let mem = operand_memory(row.operands, asked);
    choice.mode * 64 + reg * 8 + rm_field(choice.mode, choice.scale, number, mem)
}

/// The SIB byte.
pub(crate) fn sib_field(scale: Option<u8>, mem: Mem) -> Option<u8>
    requires { IfSome scale (λ s. s < 4) }
    ensures { result ≡ sib_field scale mem }
{
    match scale {
        None => None,
        Some(scale) => Some(scale * 64 + index_field(mem.index) * 8 + base_field(mem.base)),
    }
}

/// The opcode's last byte.
pub(crate) fn opcode_byte(pattern: Pattern, asked: &Asked) -> u8
    ensures { result ≡ opcode_byte pattern asked.now }
{
    if pattern.plus {
        pattern.opcode / 8 * 8 + place_number(asked.first) % 8
    } else {
        pattern.opcode
    }
}

/// Four bytes of which the displacement is the first ones.
pub(crate) fn displacement_block(mem: Mem) -> [u8; 4]
    ensures { result ≡ to_le_bytes w32 (cast_unsigned w32 mem.disp) }
{
    mem.disp.to_le_bytes()
}

/// Eight bytes of which the immediate, or the end of the opcode, is the first ones.
pub(crate) fn immediate_block(immediate: Immediate, w: Width, asked: &Asked) -> [u8; 8]
    ensures { result ≡ immediate_block immediate w asked.now }
{
    match (immediate, w) {
        (Immediate::Ub, _) => [asked.byte, 0, 0, 0, 0, 0, 0, 0],
        (Immediate::OpcodeByte, _) => [0xFA, 0, 0, 0, 0, 0, 0, 0],
        (Immediate::Iv, Width::W64) => asked.word.to_le_bytes(),
        _ => {
            let [a, b, c, d] = asked.signed.to_le_bytes();
            [a, b, c, d, 0, 0, 0, 0]
        }
    }
}
