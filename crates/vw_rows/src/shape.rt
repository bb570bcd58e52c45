ghost use Rattle.std.specs.Prelude.{◌≡◌, ◌+◌, ◌*◌, ◌^◌, ◌<◌, ◌≤◌};
ghost use Rattle.vw_rows.specs.Parts.{rex_b};
ghost use Rattle.vw_rows.specs.Views.{modrm_view, optional_view, parts_view};
ghost use Rattle.vw_rows.specs.Shape.{high_register, byte_register, has_rex, register_place, base_at, index_at, memory_at, rm_place, reg_number, xmm_operand, rm_width, first_place, second_place, xmm_register, xmm_second, signed_immediate, byte_immediate, shape_of};

use crate::layout::without_base;
use crate::numbers::{byte_of, signed_of, unsigned_of};
use crate::parts::{Modrm, Parts, rex_b, rex_r, rex_x};
use crate::{Immediate, Kind, Operands, Row};
use vw_insn::{Base, HighReg, Mem, Place, Reg, Width, XmmOperand};

/// The operands of an instruction as its bytes name them, whichever instruction it is. A field that
/// the instruction's row does not have holds `Rax` or 0.
#[derive(Clone, Copy, Debug, PartialEq, Eq)]
pub struct Shape {
    /// The width of the operation, 32 bits where the row names none.
    pub w: Width,
    /// The operand that the row names first.
    pub first: Place,
    /// The operand that the row names second.
    pub second: Place,
    /// The immediate or the distance, sign-extended.
    pub signed: i32,
    /// The immediate as an unsigned byte, and 1 for a shift by 1.
    pub byte: u8,
    /// The immediate of eight bytes.
    pub word: u64,
    /// The number of the register in ModRM's reg field, of an instruction on XMM registers.
    pub reg: u8,
    /// The operand of ModRM's r/m field, of an instruction on XMM registers.
    pub rm: XmmOperand,
}

/// What the parts of an instruction of the row name, at the width.
pub fn shape_of(row: Row, w: Width, parts: &Parts<'_>) -> Shape
    ensures { result ≡ shape_of row w (parts_view parts.now) }
{
    Shape {
        w,
        first: first_place(row.operands, row.kind, w, parts),
        second: second_place(row.operands, row.kind, w, parts),
        signed: signed_immediate(row.immediate, parts.imm),
        byte: byte_immediate(row.immediate, parts.imm),
        word: unsigned_of(parts.imm),
        reg: xmm_register(row.operands, parts),
        rm: xmm_second(row.operands, parts),
    }
}

// The byte register of a number, 4 to 7, where there is no REX.
fn high_register(n: u8) -> HighReg
    requires { 4 ≤ n }
    ensures { result ≡ high_register n }
{
    match n {
        4 => HighReg::Ah,
        5 => HighReg::Ch,
        6 => HighReg::Dh,
        _ => HighReg::Bh,
    }
}

fn byte_register(has_rex: bool, n: u8) -> Place
    requires { n < 16 }
    ensures { result ≡ byte_register has_rex n }
{
    if has_rex || n < 4 {
        Place::Reg(Reg::from_number(n))
    } else {
        Place::High(high_register(n))
    }
}

fn has_rex(rex: Option<u8>) -> bool
    ensures { result ≡ has_rex rex }
{
    rex.is_some()
}

// The register of a number at a width.
fn register_place(w: Width, rex: Option<u8>, n: u8) -> Place
    requires { n < 16 }
    ensures { result ≡ register_place w rex n }
{
    match w {
        Width::W8 => byte_register(has_rex(rex), n),
        Width::W16 | Width::W32 | Width::W64 => Place::Reg(Reg::from_number(n)),
    }
}

// The number of the register in the r/m field or in the base of the SIB.
fn low_number(rex: Option<u8>, field: u8) -> u8
    requires { field < 8 }
    ensures number { result ≡ field + 8 * rex_b rex }
    ensures below { result < 16 }
{
    field + 8 * rex_b(rex)
}

fn base_at(rex: Option<u8>, byte: u8, sib: Option<u8>) -> Base
    ensures { result ≡ base_at rex byte sib }
{
    match sib {
        None => {
            if without_base(byte, None) {
                Base::Rip
            } else {
                Base::Reg(Reg::from_number(low_number(rex, byte % 8)))
            }
        }
        Some(sib) => {
            if without_base(byte, Some(sib)) {
                Base::None
            } else {
                Base::Reg(Reg::from_number(low_number(rex, sib % 8)))
            }
        }
    }
}

fn index_at(rex: Option<u8>, sib: Option<u8>) -> Option<(Reg, u8)>
    ensures { result ≡ index_at rex sib }
{
    match sib {
        None => None,
        Some(sib) => {
            let number = sib / 8 % 8 + 8 * rex_x(rex);
            if number == 4 {
                None
            } else {
                Some((Reg::from_number(number), scale_of(sib / 64)))
            }
        }
    }
}

fn scale_of(field: u8) -> u8
    requires { field < 4 }
    ensures { result ≡ 2 ^ field }
{
    match field {
        0 => 1,
        1 => 2,
        2 => 4,
        _ => 8,
    }
}

// The memory that ModRM, SIB and displacement name.
fn memory_at(rex: Option<u8>, modrm: &Modrm<'_>) -> Mem
    ensures { result ≡ memory_at rex (modrm_view modrm.now) }
{
    Mem {
        base: base_at(rex, modrm.byte, modrm.sib),
        index: index_at(rex, modrm.sib),
        disp: signed_of(modrm.disp),
    }
}

// The operand of ModRM's r/m field.
fn rm_place(w: Width, parts: &Parts<'_>) -> Place
    ensures { result ≡ rm_place w parts.now.rex (optional_view parts.now.modrm) }
{
    match parts.modrm {
        None => Place::Reg(Reg::Rax),
        Some(m) => {
            if m.byte / 64 == 3 {
                register_place(w, parts.rex, low_number(parts.rex, m.byte % 8))
            } else {
                Place::Mem(memory_at(parts.rex, &m))
            }
        }
    }
}

// The number of the register in ModRM's reg field.
fn reg_number(parts: &Parts<'_>) -> u8
    ensures number { result ≡ reg_number parts.now.rex (optional_view parts.now.modrm) }
    ensures below { result < 16 }
{
    match parts.modrm {
        None => 0,
        Some(m) => m.byte / 8 % 8 + 8 * rex_r(parts.rex),
    }
}

fn xmm_operand(parts: &Parts<'_>) -> XmmOperand
    ensures { result ≡ xmm_operand parts.now.rex (optional_view parts.now.modrm) }
{
    match parts.modrm {
        None => XmmOperand::Reg(0),
        Some(m) => {
            if m.byte / 64 == 3 {
                XmmOperand::Reg(low_number(parts.rex, m.byte % 8))
            } else {
                XmmOperand::Mem(memory_at(parts.rex, &m))
            }
        }
    }
}

// The width of the operand of ModRM's r/m field: of an extension the width that it extends.
fn rm_width(kind: Kind, w: Width) -> Width
    ensures { result ≡ rm_width kind w }
{
    match kind {
        Kind::Extend(_, from) => from,
        _ => w,
    }
}

fn first_place(operands: Operands, kind: Kind, w: Width, parts: &Parts<'_>) -> Place
    ensures { result ≡ first_place operands kind w (parts_view parts.now) }
{
    match operands {
        Operands::EG | Operands::E => rm_place(rm_width(kind, w), parts),
        Operands::GE => register_place(w, parts.rex, reg_number(parts)),
        Operands::OpcodeReg => {
            register_place(w, parts.rex, low_number(parts.rex, parts.opcode % 8))
        }
        _ => Place::Reg(Reg::Rax),
    }
}

fn second_place(operands: Operands, kind: Kind, w: Width, parts: &Parts<'_>) -> Place
    ensures { result ≡ second_place operands kind w (parts_view parts.now) }
{
    match operands {
        Operands::EG => register_place(w, parts.rex, reg_number(parts)),
        Operands::GE => rm_place(rm_width(kind, w), parts),
        _ => Place::Reg(Reg::Rax),
    }
}

fn xmm_register(operands: Operands, parts: &Parts<'_>) -> u8
    ensures { result ≡ xmm_register operands (parts_view parts.now) }
{
    match operands {
        Operands::Xmm => reg_number(parts),
        _ => 0,
    }
}

fn xmm_second(operands: Operands, parts: &Parts<'_>) -> XmmOperand
    ensures { result ≡ xmm_second operands (parts_view parts.now) }
{
    match operands {
        Operands::Xmm => xmm_operand(parts),
        _ => XmmOperand::Reg(0),
    }
}

fn signed_immediate(immediate: Immediate, bytes: &[u8]) -> i32
    ensures { result ≡ signed_immediate immediate bytes.now }
{
    match immediate {
        Immediate::Ib | Immediate::Iz | Immediate::Rel8 | Immediate::Rel32 | Immediate::Iv => {
            signed_of(bytes)
        }
        Immediate::None | Immediate::Ub | Immediate::By1 | Immediate::Cl | Immediate::OpcodeByte =>
            0,
    }
}

fn byte_immediate(immediate: Immediate, bytes: &[u8]) -> u8
    ensures { result ≡ byte_immediate immediate bytes.now }
{
    match immediate {
        Immediate::Ub => byte_of(bytes),
        Immediate::By1 => 1,
        _ => 0,
    }
}
