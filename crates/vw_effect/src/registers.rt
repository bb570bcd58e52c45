//! The sixteen general registers, by number.

ghost use Rattle.std.specs.Prelude.{◌≡◌, ℕ, ◌<◌};
ghost use Rattle.vw_insn.specs.Words.{number, put};
ghost use Rattle.vw_insn.specs.Arithmetic.{modulus};
ghost use Rattle.vw_insn.specs.Effect.{unwound, raised, put_place, place_word, source_word, put_results, put_bits};
ghost use Rattle.vw_effect.specs.Meaning.{registers_of};

use crate::addresses::raise;
use crate::words::{with_high, with_low};
use vw_insn::{BitsOp, Place, Reg, Source, Width, word_of};

/// The word that a register holds.
pub fn word_in(registers: &[u64; 16], reg: Reg) -> u64
    ensures { result ≡ registers_of registers.now (number reg) }
{
    registers[usize::from(reg.number())]
}

/// Puts a word into a register.
pub fn put(registers: &mut [u64; 16], reg: Reg, word: u64)
    ensures { registers_of registers.new ≡ put (registers_of registers.old) (number reg) word }
{
    registers[usize::from(reg.number())] = word;
}

/// Pops a word into a register: rsp rises by 8, and then the register is written.
pub fn pop_into(registers: &mut [u64; 16], reg: Reg, word: u64)
    ensures { registers_of registers.new
        ≡ put (put (registers_of registers.old) 4 (raised (registers_of registers.old 4)))
        (number reg) word }
{
    let rsp = raise(word_in(registers, Reg::Rsp));
    put(registers, Reg::Rsp, rsp);
    put(registers, reg, word);
}

/// Leaves a frame: rsp becomes rbp, and then a word is popped into rbp.
pub fn leave_frame(registers: &mut [u64; 16], word: u64)
    ensures { let framed = unwound (registers_of registers.old) in
        registers_of registers.new ≡ put (put framed 4 (raised (framed 4))) 5 word }
{
    let rbp = word_in(registers, Reg::Rbp);
    put(registers, Reg::Rsp, rbp);
    pop_into(registers, Reg::Rbp, word);
}

/// Writes `x`, a number of a width, to the place that is a register or a part of one. Memory stays.
pub fn put_place(registers: &mut [u64; 16], w: Width, dst: Place, x: u64)
    requires { x < modulus w }
    ensures { registers_of registers.new ≡ put_place (registers_of registers.old) w dst x }
{
    match dst {
        Place::Reg(reg) => {
            let old = word_in(registers, reg);
            put(registers, reg, with_low(w, old, x));
        }
        Place::High(high) => {
            let reg = high.register();
            let old = word_in(registers, reg);
            put(registers, reg, with_high(old, x % 0x100));
        }
        Place::Mem(_) => {}
    }
}

/// Writes a number of a width to a register and then another to the same or another one.
pub fn put_places(registers: &mut [u64; 16], w: Width, a: Reg, x: u64, b: Reg, y: u64)
    requires first { x < modulus w }
    requires second { y < modulus w }
    ensures { registers_of registers.new
        ≡ put_place (put_place (registers_of registers.old) w (Place.Reg a) x) w (Place.Reg b) y }
{
    put_place(registers, w, Place::Reg(a), x);
    put_place(registers, w, Place::Reg(b), y);
}

/// Writes the results of MUL, IMUL, DIV and IDIV with one operand: to ax at 8 bits, else to rax and
/// rdx.
pub fn put_results(registers: &mut [u64; 16], w: Width, first: u64, second: u64)
    ensures { (numbers : ℕ → ℕ) → numbers 0 ≡ first → numbers 1 ≡ second
        → registers_of registers.new ≡ put_results (registers_of registers.old) w numbers }
{
    match w {
        Width::W8 => put_place(
            registers,
            Width::W16,
            Place::Reg(Reg::Rax),
            Width::W16.low(first),
        ),
        Width::W16 | Width::W32 | Width::W64 => {
            put_places(
                registers,
                w,
                Reg::Rax,
                w.low(first),
                Reg::Rdx,
                w.low(second),
            );
        }
    }
}

/// Writes the result of BSF, BSR, POPCNT, TZCNT or LZCNT to a register.
pub fn put_bits(registers: &mut [u64; 16], op: BitsOp, w: Width, dst: Reg, chosen: u64)
    ensures { registers_of registers.new ≡ put_bits op (registers_of registers.old) w dst chosen }
{
    match op {
        BitsOp::Popcnt => put_place(registers, w, Place::Reg(dst), w.low(chosen)),
        BitsOp::Bsf | BitsOp::Bsr | BitsOp::Tzcnt | BitsOp::Lzcnt => put(registers, dst, chosen),
    }
}

/// The word that a place holds, of which an instruction takes the low bits; `loaded` is that of
/// memory.
pub fn place_word(registers: &[u64; 16], loaded: u64, place: Place) -> u64
    ensures { result ≡ place_word (registers_of registers.now) loaded place }
{
    match place {
        Place::Reg(reg) => word_in(registers, reg),
        Place::High(high) => word_in(registers, high.register()) / 0x100 % 0x100,
        Place::Mem(_) => loaded,
    }
}

/// The word of an operand that is only read.
pub fn source_word(registers: &[u64; 16], loaded: u64, source: Source) -> u64
    ensures { result ≡ source_word (registers_of registers.now) loaded source }
{
    match source {
        Source::Place(place) => place_word(registers, loaded, place),
        Source::Imm(imm) => word_of(imm),
    }
}
