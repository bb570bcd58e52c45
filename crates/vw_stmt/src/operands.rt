use vw_insn::{Reg, Width};

/// What a statement reads and writes: a word of 64 bits.
#[derive(Clone, Copy, Debug, PartialEq, Eq)]
pub enum Var {
    /// A general register (SDM volume 1, 3.4.1).
    Reg(Reg),
    /// A register of the instruction alone, which holds any number until the instruction sets it.
    Tmp,
}

/// A second operand.
#[derive(Clone, Copy, Debug, PartialEq, Eq)]
pub enum Operand {
    Var(Var),
    /// An immediate, sign-extended to 64 bits.
    Imm(i32),
}

/// What CMP compared (SDM volume 2, "CMP"): the low `w` bits of `a` with the low `w` bits of `b`.
#[derive(Clone, Copy, Debug, PartialEq, Eq)]
pub struct Compare {
    pub w: Width,
    pub a: Var,
    pub b: Operand,
}
