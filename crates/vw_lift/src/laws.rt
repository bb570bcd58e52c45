//! Facts about the statements of an instruction, each the contract of a function that does nothing.

ghost use Rattle.vw_insn.specs.declared.instruction.Insn.{Insn};
ghost use Rattle.vw_insn.specs.Listed.{IsListed};
ghost use Rattle.vw_lift.specs.Lifted.{lifted};
ghost use Rattle.vw_lift.specs.Simulation.{HasWord, IsInForm, IsRunOf};

/// The statements of an instruction are at most eight, their fields are in range, the last of them
/// alone is a `Flow`, and none accesses memory after one that writes it.
pub fn lists_are_in_form()
    ensures { (insn : Insn) → IsListed insn → HasWord insn → IsInForm (lifted insn) }
{}

/// The effect of an instruction is a run of its statements, whatever memory is and whatever the
/// instruction leaves open: so the statements say at most what it does. The registers before it
/// hold words of 64 bits, and loads of at most eight bytes give words.
pub fn effect_is_a_run()
    ensures { (insn : Insn) → IsListed insn → IsRunOf (lifted insn) insn }
{}
