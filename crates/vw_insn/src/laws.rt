//! Facts about registers, each the contract of a function that does nothing.

ghost use Rattle.std.specs.Prelude.{◌≡◌, ℕ, ◌<◌};
ghost use Rattle.vw_insn.specs.declared.registers.Reg.{Reg};
ghost use Rattle.vw_insn.specs.Words.{number, register};

/// The numbers 0 to 15 and the general registers name each other.
pub fn registers_are_numbered()
    ensures number { (n : ℕ) → n < 16 → number (register n) ≡ n }
    ensures register { (r : Reg) → register (number r) ≡ r }
{}
