ghost use Rattle.std.specs.Prelude.{ℕ, List};
ghost use Rattle.vw_insn.specs.declared.instruction.Insn.{Insn};
ghost use Rattle.vw_insn.specs.Listed.{IsListed};
ghost use Rattle.vw_rows.specs.Spelling.{Spells};

/// Each field of an instruction that has a spelling is one that some row can give, so that it can be
/// printed.
pub fn spelled_is_listed()
    ensures { (bytes : List ℕ) (insn : Insn) → Spells bytes insn → IsListed insn }
{}
