ghost use Rattle.std.specs.Prelude.{◌≡◌};
ghost use Rattle.vw_switch.specs.Targets.{signed, offset_in, leads_to, target};

use vw_image::{Image, Word, segments_are_bounded};

// A number below 2^32 as the signed one with the same 32 bits.
fn signed(number: u64) -> i128
    ensures { result ≡ signed number }
{
    if number < 0x8000_0000 {
        number as i128
    } else {
        number as i128 - 0x1_0000_0000
    }
}

// The offset of an address in a function.
fn offset_in(entry: u64, size: u32, address: i128) -> Option<u32>
    ensures { result ≡ offset_in entry size address }
{
    if address < entry as i128 {
        return None;
    }
    let distance = address - entry as i128;
    if distance < size as i128 {
        Some(distance as u32)
    } else {
        None
    }
}

// Where an entry leads that holds this word, of a table at `base`.
fn leads_to(base: u64, entry: u64, size: u32, word: Word) -> Option<u32>
    ensures { result ≡ leads_to base entry size word }
{
    match word {
        Word::Plain(number) => offset_in(entry, size, base as i128 + signed(number)),
        Word::Based(_) | Word::Bound(_) | Word::Mixed | Word::Outside => None,
    }
}

/// Where entry `i` of the table of jumps at `base` leads, as an offset in the function with this entry and size:
/// `base` and the signed word of 32 bits at `base` + 4 · `i`, as the image holds it after relocation. Addresses count
/// from the load address, and sums are exact. None exactly where the word is not plain, since it is not all readable or a
/// relocation changes it, or where it leads to no byte of the function. Takes no memory.
pub fn target(image: &Image, base: u64, i: u64, entry: u64, size: u32) -> Option<u32>
    ensures { result ≡ target image.now base i entry size }
{
    segments_are_bounded();
    image.bytes();
    let address = base as u128 + 4 * i as u128;
    if address > u64::MAX as u128 {
        return None;
    }
    leads_to(base, entry, size, image.word_at(address as u64, 4))
}
