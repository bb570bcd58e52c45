ghost use Rattle.std.specs.Prelude.{◌≡◌};
ghost use Rattle.vw_insn.specs.Names.{reg64_text, reg32_text, reg16_text, reg8_text, reg_text, high_text, cond_text, alu_text, shift_text, unary_text, muldiv_text, bits_text};

use crate::{AluOp, BitsOp, Cond, HighReg, MulDivOp, Reg, ShiftOp, UnaryOp, Width};

/// The name of the 64 bits of a register.
pub fn reg64_name(reg: Reg) -> &'static str
    ensures { result.now ≡ reg64_text reg }
{
    match reg {
        Reg::Rax => "rax",
        Reg::Rcx => "rcx",
        Reg::Rdx => "rdx",
        Reg::Rbx => "rbx",
        Reg::Rsp => "rsp",
        Reg::Rbp => "rbp",
        Reg::Rsi => "rsi",
        Reg::Rdi => "rdi",
        Reg::R8 => "r8",
        Reg::R9 => "r9",
        Reg::R10 => "r10",
        Reg::R11 => "r11",
        Reg::R12 => "r12",
        Reg::R13 => "r13",
        Reg::R14 => "r14",
        Reg::R15 => "r15",
    }
}

/// The name of the low 32 bits of a register.
pub fn reg32_name(reg: Reg) -> &'static str
    ensures { result.now ≡ reg32_text reg }
{
    match reg {
        Reg::Rax => "eax",
        Reg::Rcx => "ecx",
        Reg::Rdx => "edx",
        Reg::Rbx => "ebx",
        Reg::Rsp => "esp",
        Reg::Rbp => "ebp",
        Reg::Rsi => "esi",
        Reg::Rdi => "edi",
        Reg::R8 => "r8d",
        Reg::R9 => "r9d",
        Reg::R10 => "r10d",
        Reg::R11 => "r11d",
        Reg::R12 => "r12d",
        Reg::R13 => "r13d",
        Reg::R14 => "r14d",
        Reg::R15 => "r15d",
    }
}

/// The name of the low 16 bits of a register.
pub fn reg16_name(reg: Reg) -> &'static str
    ensures { result.now ≡ reg16_text reg }
{
    match reg {
        Reg::Rax => "ax",
        Reg::Rcx => "cx",
        Reg::Rdx => "dx",
        Reg::Rbx => "bx",
        Reg::Rsp => "sp",
        Reg::Rbp => "bp",
        Reg::Rsi => "si",
        Reg::Rdi => "di",
        Reg::R8 => "r8w",
        Reg::R9 => "r9w",
        Reg::R10 => "r10w",
        Reg::R11 => "r11w",
        Reg::R12 => "r12w",
        Reg::R13 => "r13w",
        Reg::R14 => "r14w",
        Reg::R15 => "r15w",
    }
}

/// The name of the low 8 bits of a register.
pub fn reg8_name(reg: Reg) -> &'static str
    ensures { result.now ≡ reg8_text reg }
{
    match reg {
        Reg::Rax => "al",
        Reg::Rcx => "cl",
        Reg::Rdx => "dl",
        Reg::Rbx => "bl",
        Reg::Rsp => "spl",
        Reg::Rbp => "bpl",
        Reg::Rsi => "sil",
        Reg::Rdi => "dil",
        Reg::R8 => "r8b",
        Reg::R9 => "r9b",
        Reg::R10 => "r10b",
        Reg::R11 => "r11b",
        Reg::R12 => "r12b",
        Reg::R13 => "r13b",
        Reg::R14 => "r14b",
        Reg::R15 => "r15b",
    }
}

/// The name of bits 8 to 15 of a register.
pub fn high_name(high: HighReg) -> &'static str
    ensures { result.now ≡ high_text high }
{
    match high {
        HighReg::Ah => "ah",
        HighReg::Ch => "ch",
        HighReg::Dh => "dh",
        HighReg::Bh => "bh",
    }
}

/// How a condition ends the mnemonics `j..`, `set..` and `cmov..`.
pub fn cond_name(cond: Cond) -> &'static str
    ensures { result.now ≡ cond_text cond }
{
    match cond {
        Cond::O => "o",
        Cond::No => "no",
        Cond::B => "b",
        Cond::Ae => "ae",
        Cond::E => "e",
        Cond::Ne => "ne",
        Cond::Be => "be",
        Cond::A => "a",
        Cond::S => "s",
        Cond::Ns => "ns",
        Cond::P => "p",
        Cond::Np => "np",
        Cond::L => "l",
        Cond::Ge => "ge",
        Cond::Le => "le",
        Cond::G => "g",
    }
}

/// The mnemonic of an operation of arithmetic or logic.
pub fn alu_name(op: AluOp) -> &'static str
    ensures { result.now ≡ alu_text op }
{
    match op {
        AluOp::Add => "add",
        AluOp::Or => "or",
        AluOp::Adc => "adc",
        AluOp::Sbb => "sbb",
        AluOp::And => "and",
        AluOp::Sub => "sub",
        AluOp::Xor => "xor",
        AluOp::Cmp => "cmp",
    }
}

/// The mnemonic of a rotate or a shift.
pub fn shift_name(op: ShiftOp) -> &'static str
    ensures { result.now ≡ shift_text op }
{
    match op {
        ShiftOp::Rol => "rol",
        ShiftOp::Ror => "ror",
        ShiftOp::Shl => "shl",
        ShiftOp::Shr => "shr",
        ShiftOp::Sar => "sar",
    }
}

/// The mnemonic of an operation on one operand.
pub fn unary_name(op: UnaryOp) -> &'static str
    ensures { result.now ≡ unary_text op }
{
    match op {
        UnaryOp::Not => "not",
        UnaryOp::Neg => "neg",
        UnaryOp::Inc => "inc",
        UnaryOp::Dec => "dec",
    }
}

/// The mnemonic of a multiplication or a division.
pub fn muldiv_name(op: MulDivOp) -> &'static str
    ensures { result.now ≡ muldiv_text op }
{
    match op {
        MulDivOp::Mul => "mul",
        MulDivOp::Imul => "imul",
        MulDivOp::Div => "div",
        MulDivOp::Idiv => "idiv",
    }
}

/// The mnemonic of a bit scan or a bit count.
pub fn bits_name(op: BitsOp) -> &'static str
    ensures { result.now ≡ bits_text op }
{
    match op {
        BitsOp::Bsf => "bsf",
        BitsOp::Bsr => "bsr",
        BitsOp::Popcnt => "popcnt",
        BitsOp::Tzcnt => "tzcnt",
        BitsOp::Lzcnt => "lzcnt",
    }
}

/// The name of the low bits of a register, at a width.
pub fn reg_name(w: Width, reg: Reg) -> &'static str
    ensures { result.now ≡ reg_text w reg }
{
    match w {
        Width::W8 => reg8_name(reg),
        Width::W16 => reg16_name(reg),
        Width::W32 => reg32_name(reg),
        Width::W64 => reg64_name(reg),
    }
}
