ghost use Rattle.std.specs.Prelude.{◌≡◌, ◌+◌, ◌≤◌, length, true, Some, None, if◌then◌else◌};
ghost use Rattle.vw_bits.specs.Places.{in_memory};
ghost use Rattle.vw_bits.specs.Bounds.{IsBounded, AreBounded};
ghost use Rattle.vw_image.specs.Bounds.{AllApart};
ghost use Rattle.vw_image.specs.Image.{segment_byte};
ghost use Rattle.vw_image.specs.Stubs.{spells, stands_at, slot_behind, slot_at, stub_to};

use crate::Word;
use crate::places::{byte_at, executable_segment, number_in};
use vw_bits::{Segment, sign_extend, sum};

/// A stub: a jump through a word of the image, of the form in which a linker lays out an entry of its
/// procedure linkage table.
#[derive(Clone, Copy, Debug, PartialEq, Eq)]
pub struct Stub {
    /// The address of the word, counted from the load address.
    pub slot: u64,
    /// Where the jump goes.
    pub to: StubTo,
}

/// Where a stub goes.
#[derive(Clone, Copy, Debug, PartialEq, Eq)]
pub enum StubTo {
    /// To the import with this number.
    Import(u32),
    /// To this address, counted from the load address. Whether it is one to jump to is left to the caller: it
    /// need not be in the image.
    Inside(u64),
}

/// JMP [rip + disp32], up to the displacement.
const JUMP: [u8; 2] = [0xFF, 0x25];

/// The same behind ENDBR64.
const CHECKED_JUMP: [u8; 6] = [0xF3, 0x0F, 0x1E, 0xFA, 0xFF, 0x25];

/// The same behind ENDBR64 and with the BND prefix.
const BOUND_JUMP: [u8; 7] = [0xF3, 0x0F, 0x1E, 0xFA, 0xF2, 0xFF, 0x25];

const DISPLACEMENT: u64 = 4;

// The address of the word through which the bytes of a stub at an address jump, where such bytes stand there.
pub(crate) fn slot_at(bytes: &[u8], segments: &[Segment], address: u64) -> Option<u64>
    requires bounded { AreBounded (length bytes.now) segments.now }
    requires apart { AllApart segments.now }
    ensures { result ≡ slot_at bytes.now segments.now address }
{
    if let Some(slot) = slot_behind(bytes, segments, address, &JUMP) {
        return Some(slot);
    }
    if let Some(slot) = slot_behind(bytes, segments, address, &CHECKED_JUMP) {
        return Some(slot);
    }
    slot_behind(bytes, segments, address, &BOUND_JUMP)
}

// The same for one opcode.
fn slot_behind(bytes: &[u8], segments: &[Segment], address: u64, opcode: &[u8]) -> Option<u64>
    requires bounded { AreBounded (length bytes.now) segments.now }
    requires apart { AllApart segments.now }
    requires short { length opcode.now ≤ 8 }
    ensures { result ≡ (if stands_at bytes.now segments.now address opcode.now then Some (slot_behind bytes.now segments.now address opcode.now) else None) }
{
    let len = opcode.len() as u64;
    let segment = executable_segment(segments, address, len + DISPLACEMENT)?;
    if !spells(bytes, segment, address, opcode) {
        return None;
    }
    let displacement = number_in(bytes, segment, address + len, 4);
    let next = address + len + DISPLACEMENT;
    Some(sum(next, sign_extend(displacement, 4)))
}

// Whether the bytes from an address on are these.
fn spells(bytes: &[u8], segment: &Segment, address: u64, expected: &[u8]) -> bool
    requires bounded { IsBounded (length bytes.now) segment.now }
    requires held { in_memory address (length expected.now) segment.now ≡ true }
    ensures { result ≡ spells (segment_byte bytes.now segment.now) address expected.now }
{
    let mut at = address;
    for byte in expected {
        if byte_at(bytes, segment, at) != *byte {
            return false;
        }
        at += 1;
    }
    true
}

// The stub with this slot, where the slot's word is one to jump to.
pub(crate) fn stub_to(slot: u64, word: Word) -> Option<Stub>
    ensures { result ≡ stub_to slot word }
{
    let to = match word {
        Word::Bound(number) => StubTo::Import(number),
        Word::Based(address) => StubTo::Inside(address),
        Word::Plain(_) | Word::Mixed | Word::Outside => return None,
    };
    Some(Stub { slot, to })
}
