ghost use Rattle.std.specs.Prelude.{◌≡◌, ℕ, List, length, None, IfOk, IfSome};
ghost use Rattle.vw_rows.specs.Spelling.{Spells};
ghost use Rattle.vw_encode.specs.Order.{IsFirst};

use std::alloc::Global;
use vw_bits::{OutOfMemory, Text};
use vw_decode::decode;
use vw_encode::encode;
use vw_insn::Insn;

/// Decodes what `encode` gives for an instruction, with any bytes behind it: the answer is the instruction,
/// with the length of its first spelling. `None` exactly where nothing spells the instruction.
pub fn round_trip(
    alloc: Global,
    insn: &Insn,
    behind: &[u8],
) -> Result<Option<(Insn, usize)>, OutOfMemory>
    ensures back { IfOk result (λ found. IfSome found (λ f. (f.0 ≡ insn.now) × (front : List ℕ)
        × IsFirst front insn.now × (f.1 ≡ length front))) }
    ensures none { IfOk result (λ found. found ≡ None
        → (bytes : List ℕ) → Spells bytes insn.now → ⊥) }
{
    let Ok(spelled) = encode(insn) else {
        return Ok(None);
    };
    let mut bytes = Text::new(alloc);
    bytes.push(&spelled.bytes[..spelled.len as usize])?;
    bytes.push(behind)?;
    Ok(decode(bytes.as_slice()))
}
