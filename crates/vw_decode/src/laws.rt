//! Facts about the definitions, each the contract of a function that does nothing.

ghost use Rattle.std.specs.Prelude.{◌≡◌, ◌↔◌, ℕ, ◌≤◌, List, length, take, None, Some};
ghost use Rattle.vw_insn.specs.declared.instruction.Insn.{Insn};
ghost use Rattle.vw_rows.specs.Numbers.{IsBytes};
ghost use Rattle.vw_rows.specs.Spelling.{Spells};
ghost use Rattle.vw_decode.specs.Lexing.{Found, insn_found, length_found, read};

/// Reading an instruction from the front of some bytes answers exactly what is spelled there (SDM volume 2,
/// chapter 2). Nothing is read exactly where no front of the bytes spells an instruction. Else the bytes that
/// were read, 1 to 15 of them, spell the instruction that was read, and they spell no other; nor does another
/// front of the bytes spell one.
pub fn read_is_spelling()
    ensures none { (bytes : List ℕ) → IsBytes bytes → (read bytes ≡ None) ↔ ((n : ℕ) (insn : Insn) → Spells (take n bytes) insn → ⊥) }
    ensures found { (bytes : List ℕ) (f : Found) → IsBytes bytes → read bytes ≡ Some f → Spells (take (length_found bytes f) bytes) (insn_found f) }
    ensures size { (bytes : List ℕ) (f : Found) → read bytes ≡ Some f → (1 ≤ length_found bytes f) × (length_found bytes f ≤ 15) }
    ensures only { (bytes : List ℕ) (f : Found) (n : ℕ) (insn : Insn) → read bytes ≡ Some f → n ≤ length bytes → Spells (take n bytes) insn → (insn_found f ≡ insn) × (length_found bytes f ≡ n) }
{}

/// No bytes are a spelling by two rows, of one instruction or of two.
pub fn one_row_per_spelling()
    ensures { (bytes : List ℕ) (i j : Insn) (s : Spells bytes i) (t : Spells bytes j) → s.row ≡ t.row }
{}
