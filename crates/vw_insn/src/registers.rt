ghost use Rattle.std.specs.Prelude.{◌≡◌, ◌<◌};
ghost use Rattle.vw_insn.specs.Words.{number, register, register_of, bytes_in, low};
ghost use Rattle.vw_insn.specs.Arithmetic.{modulus};

/// A general register, in the order of its number in ModRM, SIB and REX (SDM volume 2, 2.1.5 and
/// table 3-1): `Rax` is 0 and `R15` is 15. How many of its bits an instruction uses is said by a
/// `Width` beside it.
#[derive(Clone, Copy, Debug, PartialEq, Eq)]
pub enum Reg {
    Rax,
    Rcx,
    Rdx,
    Rbx,
    Rsp,
    Rbp,
    Rsi,
    Rdi,
    R8,
    R9,
    R10,
    R11,
    R12,
    R13,
    R14,
    R15,
}

impl Reg {
    /// The register's number, 0 to 15.
    pub fn number(self) -> u8
        ensures number { result ≡ number self }
        ensures below { result < 16 }
    {
        self as u8
    }

    /// The register of a number, 0 to 15.
    pub fn from_number(number: u8) -> Reg
        requires { number < 16 }
        ensures { result ≡ register number }
    {
        match number {
            0 => Reg::Rax,
            1 => Reg::Rcx,
            2 => Reg::Rdx,
            3 => Reg::Rbx,
            4 => Reg::Rsp,
            5 => Reg::Rbp,
            6 => Reg::Rsi,
            7 => Reg::Rdi,
            8 => Reg::R8,
            9 => Reg::R9,
            10 => Reg::R10,
            11 => Reg::R11,
            12 => Reg::R12,
            13 => Reg::R13,
            14 => Reg::R14,
            _ => Reg::R15,
        }
    }
}

/// One of the four registers that name bits 8 to 15 of `Rax`, `Rcx`, `Rdx` and `Rbx`, in the order
/// of their numbers 4 to 7 (SDM volume 1, 3.4.1.1). An instruction with a REX prefix names none.
#[derive(Clone, Copy, Debug, PartialEq, Eq)]
pub enum HighReg {
    Ah,
    Ch,
    Dh,
    Bh,
}

impl HighReg {
    /// The register of which it is bits 8 to 15.
    pub fn register(self) -> Reg
        ensures { result ≡ register_of self }
    {
        match self {
            HighReg::Ah => Reg::Rax,
            HighReg::Ch => Reg::Rcx,
            HighReg::Dh => Reg::Rdx,
            HighReg::Bh => Reg::Rbx,
        }
    }
}

/// The size of an operand in bits (SDM volume 1, 3.6.1).
#[derive(Clone, Copy, Debug, PartialEq, Eq)]
pub enum Width {
    W8,
    W16,
    W32,
    W64,
}

impl Width {
    /// How many bytes an operand of this width has.
    pub fn bytes(self) -> u8
        ensures { result ≡ bytes_in self }
    {
        match self {
            Width::W8 => 1,
            Width::W16 => 2,
            Width::W32 => 4,
            Width::W64 => 8,
        }
    }

    /// The low bits of a word, as many as the width has.
    pub fn low(self, word: u64) -> u64
        ensures bits { result ≡ low self word }
        ensures fits { result < modulus self }
    {
        match self {
            Width::W8 => word % 0x100,
            Width::W16 => word % 0x1_0000,
            Width::W32 => word % 0x1_0000_0000,
            Width::W64 => word,
        }
    }
}
