ghost use Rattle.std.specs.Prelude.{◌≡◌, ℕ, ◌≤◌, List, take, get_or, IfOk, IfErr};
ghost use Rattle.vw_rows.specs.Spelling.{Spells};
ghost use Rattle.vw_encode.specs.Order.{IsFirst};

use crate::buffer::Spelled;
use crate::search::first_spelling;
use vw_insn::Insn;

/// No bytes spell the instruction.
#[derive(Clone, Copy, Debug, PartialEq, Eq)]
pub struct NotEncodable;

/// The first spelling of the instruction (SDM volume 2, chapter 2), and 0 behind it. First is the row with
/// the least number; by one row the spelling without the prefix 66, without REX, with the least bits of REX,
/// without SIB, with the least scale and with the shortest displacement, where the instruction can be spelled
/// so. A reg field that nothing names is 0.
/// `NotEncodable` exactly where no bytes spell the instruction.
pub fn encode(insn: &Insn) -> Result<Spelled, NotEncodable>
    ensures first { IfOk result (λ s. IsFirst (take s.len s.bytes) insn.now) }
    ensures size { IfOk result (λ s. (1 ≤ s.len) × (s.len ≤ 15)) }
    ensures spelled { IfOk result (λ s. Spells (take s.len s.bytes) insn.now) }
    ensures padded { IfOk result (λ s. (i : ℕ) → s.len ≤ i → get_or s.bytes i 0 ≡ 0) }
    ensures none { IfErr result (λ e. (bytes : List ℕ) → Spells bytes insn.now → ⊥) }
{
    match first_spelling(insn) {
        None => Err(NotEncodable),
        Some(spelled) => Ok(spelled),
    }
}
