use crate::{
    AluOp, BitsOp, Cond, Count, Mem, MulDivOp, Place, Reg, ShiftOp, Source, UnaryOp, Width,
    XmmOperand, XmmRow,
};

/// One instruction (SDM volume 2, chapters 3 to 5). `w` is the width of its operands, `dst` what it
/// writes, `src` what it reads. Every `rel` counts bytes from the next instruction.
#[derive(Clone, Copy, Debug, PartialEq, Eq)]
pub enum Insn {
    /// ADD, OR, ADC, SBB, AND, SUB, XOR; CMP writes no operand.
    Alu {
        op: AluOp,
        w: Width,
        dst: Place,
        src: Source,
    },
    /// PUSH of 64 bits.
    Push {
        src: Source,
    },
    /// POP of 64 bits.
    Pop {
        dst: Reg,
    },
    /// MOVZX, and where `signed` MOVSX and MOVSXD: from `from` bits to `to` bits.
    Extend {
        signed: bool,
        from: Width,
        to: Width,
        dst: Reg,
        src: Place,
    },
    /// IMUL with two operands, `dst` times `src`, or with three, `src` times the immediate.
    Imul {
        w: Width,
        dst: Reg,
        src: Place,
        imm: Option<i32>,
    },
    /// Jcc, a jump to a relative address where the condition holds.
    Jcc {
        cond: Cond,
        rel: i32,
    },
    /// JMP to a relative address.
    Jump {
        rel: i32,
    },
    /// CALL of a relative address.
    Call {
        rel: i32,
    },
    /// RET, near, without an operand.
    Ret,
    /// LEAVE.
    Leave,
    /// CALL of the address that a register or memory holds.
    CallInd {
        src: Place,
    },
    /// JMP to the address that a register or memory holds.
    JumpInd {
        src: Place,
    },
    /// TEST of `a` against `b`.
    Test {
        w: Width,
        a: Place,
        b: Source,
    },
    /// XCHG of two registers.
    Xchg {
        w: Width,
        a: Reg,
        b: Reg,
    },
    /// MOV.
    Mov {
        w: Width,
        dst: Place,
        src: Source,
    },
    /// MOV of 64 immediate bits to a register.
    MovImm64 {
        dst: Reg,
        imm: u64,
    },
    /// LEA.
    Lea {
        w: Width,
        dst: Reg,
        mem: Mem,
    },
    /// NOP of one byte, or with an operand that is not read.
    Nop,
    /// CBW, CWDE and CDQE: `Rax` from half of `w` bits to `w` bits.
    Widen {
        w: Width,
    },
    /// CWD, CDQ and CQO: the sign of the `w` bits of `Rax` into all `w` bits of `Rdx`.
    SignA {
        w: Width,
    },
    /// ROL, ROR, SHL, SHR, SAR.
    Shift {
        op: ShiftOp,
        w: Width,
        dst: Place,
        by: Count,
    },
    /// NOT, NEG, INC, DEC.
    Unary {
        op: UnaryOp,
        w: Width,
        dst: Place,
    },
    /// MUL, IMUL, DIV, IDIV with one operand.
    MulDiv {
        op: MulDivOp,
        w: Width,
        src: Place,
    },
    /// UD2.
    Ud2,
    /// CMOVcc.
    Cmov {
        cond: Cond,
        w: Width,
        dst: Reg,
        src: Place,
    },
    /// SETcc of a byte.
    Set {
        cond: Cond,
        dst: Place,
    },
    /// BSF, BSR, POPCNT, TZCNT, LZCNT.
    Bits {
        op: BitsOp,
        w: Width,
        dst: Reg,
        src: Place,
    },
    /// BT of a bit of `a`, whose number a register or an immediate gives.
    Bt {
        w: Width,
        a: Reg,
        bit: Source,
    },
    /// BSWAP.
    Bswap {
        w: Width,
        dst: Reg,
    },
    /// ENDBR64.
    Endbr,
    /// An instruction on XMM registers. `wide` is REX.W, which only those heed that have a general
    /// register or its memory as an operand: conversions from one (opcode 0F 2A) and to one (0F 2C, 0F
    /// 2D), and moves (66 0F 6E, 66 0F 7E). `reg` is the register, 0 to 15, of ModRM's reg field: an XMM
    /// register, or a general one where the instruction has it there. `imm` is 0 where there is none.
    Xmm {
        row: XmmRow,
        wide: bool,
        reg: u8,
        rm: XmmOperand,
        imm: u8,
    },
}
