//! Facts about flags, conditions and reads, each the contract of a function that does nothing.

ghost use Rattle.std.specs.Prelude.{◌≡◌, ℕ, ◌+◌, ◌<◌, ◌==◌, not, pos, ◌+ℤ◌, ◌-ℤ◌, nat_lt, nat_le, int_lt, int_le};
ghost use Rattle.vw_insn.specs.declared.registers.Width.{Width};
ghost use Rattle.vw_insn.specs.declared.operations.Cond.{Cond};
ghost use Rattle.vw_insn.specs.declared.operations.Cond.TheVariants as cond;
ghost use Rattle.vw_insn.specs.Words.{Flags, low};
ghost use Rattle.vw_insn.specs.Arithmetic.{modulus, wrapped_difference, flags_of_sum, flags_of_difference};
ghost use Rattle.vw_insn.specs.Conditions.{holds};
ghost use Rattle.vw_insn.specs.declared.instruction.Insn.{Insn};
ghost use Rattle.vw_insn.specs.Effect.{reads};
ghost use Rattle.vw_effect.specs.Meaning.{AreShort};
ghost use Rattle.vw_effect.specs.Comparisons.{signed, has_room, contrary};

/// After a comparison, CMP or SUB, of two numbers of a width the conditions compare them, unsigned
/// and signed, and OF says that their signed difference has no room in the width.
pub fn comparisons_compare()
    ensures below { (w : Width) (x y : ℕ) → holds cond.B (flags_of_difference w x y) ≡ nat_lt x y }
    ensures below_or_equal { (w : Width) (x y : ℕ) → x < modulus w → y < modulus w
        → holds cond.Be (flags_of_difference w x y) ≡ nat_le x y }
    ensures equal { (w : Width) (x y : ℕ) → x < modulus w → y < modulus w
        → holds cond.E (flags_of_difference w x y) ≡ (x == y) }
    ensures less { (w : Width) (x y : ℕ) → x < modulus w → y < modulus w
        → holds cond.L (flags_of_difference w x y) ≡ int_lt (signed w x) (signed w y) }
    ensures less_or_equal { (w : Width) (x y : ℕ) → x < modulus w → y < modulus w
        → holds cond.Le (flags_of_difference w x y) ≡ int_le (signed w x) (signed w y) }
    ensures overflow { (w : Width) (x y : ℕ) → x < modulus w → y < modulus w
        → holds cond.O (flags_of_difference w x y) ≡ not (has_room w (signed w x -ℤ signed w y)) }
    ensures sign { (w : Width) (x y : ℕ) → x < modulus w → y < modulus w
        → holds cond.S (flags_of_difference w x y)
        ≡ int_lt (signed w (low w (wrapped_difference x y))) (pos 0) }
{}

/// After ADD of two numbers of a width CF says that their sum has no room in it, and OF that their
/// signed sum has none.
pub fn sums_carry()
    ensures carry { (w : Width) (x y : ℕ)
        → holds cond.B (flags_of_sum w x y) ≡ nat_le (modulus w) (x + y) }
    ensures overflow { (w : Width) (x y : ℕ) → x < modulus w → y < modulus w
        → holds cond.O (flags_of_sum w x y) ≡ not (has_room w (signed w x +ℤ signed w y)) }
{}

/// Where a condition does not hold, its contrary does, and the other way round.
pub fn contraries_exclude()
    ensures { (c : Cond) (f : Flags) → holds (contrary c) f ≡ not (holds c f) }
{}

/// Instructions read words: at most eight bytes at a time, but for those on XMM registers, which
/// read up to sixteen and take nothing from them to general registers.
pub fn reads_are_short()
    ensures { (i : Insn) (next : ℕ) (registers : ℕ → ℕ) → AreShort i (reads i next registers) }
{}
