use crate::Pattern;
use vw_insn::{AluOp, BitsOp, Cond, MulDivOp, ShiftOp, UnaryOp, Width, XmmRow};

/// The instruction of a row, by the variant of `Insn` that it is.
#[derive(Clone, Copy, Debug, PartialEq, Eq)]
pub enum Kind {
    Alu(AluOp),
    Push,
    Pop,
    /// Whether the extension is signed, and from which width it goes.
    Extend(bool, Width),
    Imul,
    Jcc(Cond),
    Jump,
    Call,
    Ret,
    Leave,
    CallInd,
    JumpInd,
    Test,
    Xchg,
    Mov,
    /// MOV of an immediate of the register's own width: `Mov` at 16 and 32 bits, `MovImm64` at 64.
    MovImm,
    Lea,
    Nop,
    Widen,
    SignA,
    Shift(ShiftOp),
    Unary(UnaryOp),
    MulDiv(MulDivOp),
    Ud2,
    Cmov(Cond),
    Set(Cond),
    Bits(BitsOp),
    Bt,
    Bswap,
    Endbr,
    Xmm(XmmRow),
}

/// Where an instruction's operands stand, in the letters of the SDM (volume 2, A.2.1): E is the
/// register or memory of ModRM's r/m field, G the register of its reg field. All but `None`,
/// `Accumulator`, `OpcodeReg`, `WithoutRexB` and `EndsInFa` have a ModRM byte.
#[derive(Clone, Copy, Debug, PartialEq, Eq)]
pub enum Operands {
    /// No register and no memory.
    None,
    /// E, then G.
    EG,
    /// G, then E.
    GE,
    /// `Rax`.
    Accumulator,
    /// E alone; the reg field is the digit, or is free.
    E,
    /// The register that the low three bits of the opcode and REX.B name.
    OpcodeReg,
    /// No operand, and REX.B is 0.
    WithoutRexB,
    /// No operand. One byte more belongs to the opcode, its last one, and is FA.
    EndsInFa,
    /// An XMM or general register in the reg field, an XMM or general register or memory as E.
    Xmm,
}

/// How wide the operands are, and what 66 and REX.W say of it (SDM volume 2, 2.2.1.2; volume 1, 3.6.1).
#[derive(Clone, Copy, Debug, PartialEq, Eq)]
pub enum Sizing {
    /// The row names no width, and ignores REX.W.
    None,
    /// 8 bits; REX.W is ignored.
    B,
    /// 64 bits with REX.W, 16 with 66, else 32; not both.
    V,
    /// As `V`, and not 16.
    V32Or64,
    /// 64 bits; REX.W is ignored.
    Q,
    /// 64 bits; REX.W must be set.
    OnlyW,
    /// XMM registers; REX.W must not be set.
    Narrow,
    /// XMM registers; REX.W says whether the general operand has 64 bits or 32.
    Wide,
}

/// What follows ModRM, SIB and displacement (SDM volume 2, 2.1.4 and A.2.2).
#[derive(Clone, Copy, Debug, PartialEq, Eq)]
pub enum Immediate {
    /// Nothing.
    None,
    /// One byte, sign-extended.
    Ib,
    /// Two bytes at width 16, else four; sign-extended.
    Iz,
    /// One byte, an unsigned number.
    Ub,
    /// One byte, sign-extended: a distance from the next instruction.
    Rel8,
    /// Four bytes, sign-extended: a distance from the next instruction.
    Rel32,
    /// Nothing: the count of the shift is 1.
    By1,
    /// Nothing: the count of the shift is the register `cl`.
    Cl,
    /// Two, four or eight bytes by the width; sign-extended at 16 and 32.
    Iv,
    /// No immediate: one byte that is the opcode's last, behind the one that the row is found by.
    OpcodeByte,
}

/// One row: the opcode, digit, form and prefix that it is found by, and what it means.
#[derive(Clone, Copy, Debug, PartialEq, Eq)]
pub struct Row {
    /// Its place in the list of all rows, from 0. Of several rows that spell an instruction an encoder takes the
    /// one with the least number.
    pub number: u16,
    pub pattern: Pattern,
    pub kind: Kind,
    pub operands: Operands,
    pub width: Sizing,
    pub immediate: Immediate,
}
