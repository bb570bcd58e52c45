//! Registers of which a part was written.

ghost use Rattle.std.specs.Prelude.{◌≡◌, ◌<◌, ◌^◌};
ghost use Rattle.vw_insn.specs.Words.{with_low, with_high};
ghost use Rattle.vw_insn.specs.Arithmetic.{modulus};

use vw_insn::Width;

/// A register in which `x`, a number of this width, was written: 32 bits clear the upper half.
pub fn with_low(w: Width, old: u64, x: u64) -> u64
    requires { x < modulus w }
    ensures { result ≡ with_low w old x }
{
    match w {
        Width::W8 => old / 0x100 * 0x100 + x,
        Width::W16 => old / 0x1_0000 * 0x1_0000 + x,
        Width::W32 | Width::W64 => x,
    }
}

/// A register in whose bits 8 to 15 `x`, a number of 8 bits, was written.
pub fn with_high(old: u64, x: u64) -> u64
    requires { x < 2 ^ 8 }
    ensures { result ≡ with_high old x }
{
    old / 0x1_0000 * 0x1_0000 + x * 0x100 + old % 0x100
}
