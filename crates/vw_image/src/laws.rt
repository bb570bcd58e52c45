//! Facts about the definitions, each the contract of a function that does nothing.

ghost use Rattle.std.specs.Prelude.{◌≡◌, ℕ, ◌+◌, ◌^◌, ◌≤◌, ◌<◌, List, length, true, None, Some, slice_index};
ghost use Rattle.vw_bits.specs.Headers.{segments_of};
ghost use Rattle.vw_bits.specs.HeaderRules.{header_fault};
ghost use Rattle.vw_bits.specs.Bounds.{AreBounded};
ghost use Rattle.vw_image.specs.Image.{Contents, IsImage, memory_byte, image_byte};
ghost use Rattle.vw_image.specs.Words.{word_at, readable, bytes_at};
ghost use Rattle.vw_image.specs.Stubs.{in_executable};
ghost use Rattle.vw_image.specs.Laws.{IsSize, IsNumbered, Gives, image_word};

/// What a word says is what its bytes spell after relocation, for every load address and all addresses of the
/// imports.
pub fn words_spell()
    ensures { (image : Contents) → IsImage image → (a size : ℕ) → IsSize size
        → (base : ℕ) (hosts : ℕ → ℕ) → ((number : ℕ) → hosts number < 2 ^ 64)
        → Gives base hosts (word_at image a size) (image_word image base hosts a size) }
{}

/// The numbers of imports that words name are those of imports.
pub fn words_are_numbered()
    ensures { (image : Contents) → IsImage image → (a size : ℕ) → IsNumbered (length image.imports) (word_at image a size) }
{}

/// A readable range has the same bytes whatever the addresses of the imports are.
pub fn readable_is_settled()
    ensures { (image : Contents) (a n : ℕ) → readable image a n ≡ true
        → (base : ℕ) (hosts other : ℕ → ℕ) (b : ℕ) → a ≤ b → b < a + n → image_byte image base hosts b ≡ image_byte image base other b }
{}

/// No relocation changes the memory of a segment with the right to execute.
pub fn code_is_settled()
    ensures { (image : Contents) → IsImage image → (a n : ℕ) → in_executable image.segments a n ≡ true
        → (base : ℕ) (hosts : ℕ → ℕ) (b : ℕ) → a ≤ b → b < a + n → image_byte image base hosts b ≡ memory_byte image.bytes image.segments b }
{}

/// The file's bytes of a range in the file part of a segment are those of its memory before relocation.
pub fn file_bytes_are_memory()
    ensures { (image : Contents) → IsImage image → (a n : ℕ) (bytes : List ℕ) → bytes_at image a n ≡ Some bytes
        → (k : ℕ) → k < n → slice_index bytes k ≡ memory_byte image.bytes image.segments (a + k) }
{}

/// What the rules on headers give of the segments of a file.
pub fn segments_are_bounded()
    ensures { (bytes : List ℕ) → header_fault bytes ≡ None → AreBounded (length bytes) (segments_of bytes) }
{}
