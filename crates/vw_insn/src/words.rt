ghost use Rattle.std.specs.Prelude.{◌≡◌};
ghost use Rattle.vw_insn.specs.Words.{word_of};

/// The word of a displacement or an immediate: a signed number, modulo 2^64 (SDM volume 1, 4.2.1.2).
pub fn word_of(number: i32) -> u64
    ensures { result ≡ word_of number }
{
    i64::from(number).cast_unsigned()
}
