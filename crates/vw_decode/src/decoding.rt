ghost use Rattle.std.specs.Prelude.{◌≡◌, ℕ, ◌<◌, ◌≤◌, List, ◌++◌, length, take, Some, IfSome};
ghost use Rattle.vw_insn.specs.declared.instruction.Insn.{Insn};
ghost use Rattle.vw_insn.specs.Listed.{IsListed};
ghost use Rattle.vw_rows.specs.Spelling.{Spells};

use crate::tail::read;
use vw_insn::Insn;
use vw_rows::insn_of;

/// The instruction that the front of the bytes spells, and how many bytes it has (SDM volume 2, chapter
/// 2). `None` exactly where no front of them spells one.
pub fn decode(bytes: &[u8]) -> Option<(Insn, usize)>
    ensures within { IfSome result (λ found. found.1 ≤ length bytes.now) }
    ensures size { IfSome result (λ found. (1 ≤ found.1) × (found.1 ≤ 15)) }
    ensures found { IfSome result (λ found. Spells (take found.1 bytes.now) found.0) }
    ensures listed { IfSome result (λ found. IsListed found.0) }
    ensures only { (n : ℕ) (insn : Insn) → n ≤ length bytes.now → Spells (take n bytes.now) insn → result ≡ Some (insn, n) }
{
    let found = read(bytes)?;
    let insn = insn_of(found.row, found.width, &found.parts);
    Some((insn, bytes.len() - found.rest.len()))
}

/// No spelling begins another: where one does, both are the same bytes and the same instruction.
pub fn one_spelling()
    ensures { (a b x y : List ℕ) (i j : Insn) → Spells a i → Spells b j → a ++ x ≡ b ++ y → (a ≡ b) × (i ≡ j) }
{}
