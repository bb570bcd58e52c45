/// The eight operations of opcodes 00 to 3D and of 80 to 83, in the order of their digit 0 to 7
/// (SDM volume 2, table A-6, group 1).
#[derive(Clone, Copy, Debug, PartialEq, Eq)]
pub enum AluOp {
    Add,
    Or,
    Adc,
    Sbb,
    And,
    Sub,
    Xor,
    /// Compares: as `Sub`, without its result.
    Cmp,
}

/// Rotates and shifts of C0, C1 and D0 to D3 (SDM volume 2, table A-6, group 2): the digits 0, 1, 4,
/// 5 and 7.
#[derive(Clone, Copy, Debug, PartialEq, Eq)]
pub enum ShiftOp {
    Rol,
    Ror,
    Shl,
    Shr,
    Sar,
}

/// Operations on one operand (SDM volume 2, table A-6, groups 3, 4 and 5).
#[derive(Clone, Copy, Debug, PartialEq, Eq)]
pub enum UnaryOp {
    Not,
    Neg,
    Inc,
    Dec,
}

/// Multiplication and division with `Rax` and `Rdx` as implied operands (SDM volume 2, table A-6,
/// group 3): the digits 4 to 7.
#[derive(Clone, Copy, Debug, PartialEq, Eq)]
pub enum MulDivOp {
    Mul,
    Imul,
    Div,
    Idiv,
}

/// Bit scans and counts (SDM volume 2, "BSF", "BSR", "POPCNT", "TZCNT", "LZCNT").
#[derive(Clone, Copy, Debug, PartialEq, Eq)]
pub enum BitsOp {
    Bsf,
    Bsr,
    Popcnt,
    Tzcnt,
    Lzcnt,
}

/// A condition on the flags, in the order of its number 0 to 15 in an opcode (SDM volume 1,
/// table B-1 and volume 2, "Jcc"). Each odd one is the contrary of the one before.
#[derive(Clone, Copy, Debug, PartialEq, Eq)]
pub enum Cond {
    /// Overflow: OF is set.
    O,
    No,
    /// Below, unsigned: CF is set.
    B,
    Ae,
    /// Equal: ZF is set.
    E,
    Ne,
    /// Below or equal, unsigned: CF or ZF is set.
    Be,
    A,
    /// Sign: SF is set.
    S,
    Ns,
    /// Parity even: PF is set.
    P,
    Np,
    /// Less, signed: SF differs from OF.
    L,
    Ge,
    /// Less or equal, signed: ZF is set, or SF differs from OF.
    Le,
    G,
}
