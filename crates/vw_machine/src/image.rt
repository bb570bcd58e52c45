//! The bytes of the image in an instance, after relocation.

ghost use Rattle.std.specs.Prelude.{◌≡◌, ◌/◌, ◌%◌, ◌≤◌, ◌<◌, ◌^◌, true, slice_index, IfSome, IfNone};
ghost use Rattle.std.specs.List.{list_any};
ghost use Rattle.vw_image.specs.Image.{image_byte, memory_byte, touches};
ghost use Rattle.vw_image.specs.Words.{word_at};
ghost use Rattle.vw_image.specs.Laws.{image_word};
ghost use Rattle.vw_machine.specs.Module.{view_of};
ghost use Rattle.vw_machine.specs.Step.{is_in_image, image_number};
ghost use Rattle.vw_machine.specs.Found.{IsRelocated, is_image_byte};
ghost use Rattle.vw_machine.specs.Answers.{IsPlaced};

use crate::World;
use crate::judging::is_in_memory;
use crate::standing::host_of;
use vw_bits::{read_u64, sum};
use vw_image::{Word, file_bytes_are_memory, words_spell};
use vw_layout::Module;

/// How many bytes a relocation changes.
const RELOCATED: u64 = 8;

// Byte k of a word, the least significant first.
fn byte_of_word(word: u64, k: u64) -> u8
    requires { k < 8 }
    ensures { result ≡ word / 256 ^ k % 256 }
{
    ((word >> (8 * k)) % 256) as u8
}

// The byte at a place before relocation: that of the file, and zero where the file holds none.
fn file_byte(module: &Module, place: u64) -> u8
    ensures { result ≡ memory_byte «module».now.image.bytes «module».now.image.segments place }
{
    file_bytes_are_memory();
    let _ = module.image.segments();
    match module.image.bytes_at(place, 1) {
        Some(bytes) => match bytes.first() {
            Some(byte) => *byte,
            None => 0,
        },
        None => 0,
    }
}

// The word that a relocation puts at a place.
fn relocated_word(module: &Module, world: &World, place: u64) -> Option<u64>
    requires { IsPlaced «module».now world.now }
    ensures some { IfSome result (λ word. IsRelocated (word_at «module».now.image place 8)
        × (image_word «module».now.image world.now.load (slice_index world.now.hosts) place 8
        ≡ word)) }
    ensures none { IfNone result (IsRelocated (word_at «module».now.image place 8) → ⊥) }
{
    words_spell();
    let _ = module.image.segments();
    match module.image.word_at(place, 8) {
        Word::Based(to) => Some(sum(world.load, to)),
        Word::Bound(number) => Some(host_of(world, number)),
        Word::Plain(_) => None,
        Word::Mixed => None,
        Word::Outside => None,
    }
}

// The byte at a place that a relocation changes: of the word that stands at most seven bytes before it.
fn relocated_byte(module: &Module, world: &World, place: u64) -> u8
    requires placed { IsPlaced «module».now world.now }
    requires touched { list_any (touches place 1) «module».now.image.relocations ≡ true }
    ensures { result
        ≡ image_byte «module».now.image world.now.load (slice_index world.now.hosts) place }
{
    for k in 0..RELOCATED {
        if k <= place {
            if let Some(word) = relocated_word(module, world, place - k) {
                return byte_of_word(word, k);
            }
        }
    }
    0
}

// The byte at a place of the image after relocation.
fn byte_at(module: &Module, world: &World, place: u64) -> u8
    requires { IsPlaced «module».now world.now }
    ensures { result
        ≡ image_byte «module».now.image world.now.load (slice_index world.now.hosts) place }
{
    match module.image.word_at(place, 1) {
        Word::Mixed => relocated_byte(module, world, place),
        _ => file_byte(module, place),
    }
}

// Whether the byte at an address is one of the image.
fn is_image_byte(module: &Module, world: &World, address: u64) -> bool
    ensures { result ≡ is_image_byte (view_of «module».now) world.now address }
{
    match address.checked_sub(world.load) {
        Some(place) => is_in_memory(module, place),
        None => false,
    }
}

// Whether each of `size` bytes from an address is one of the image.
pub(crate) fn is_in_image(module: &Module, world: &World, at: u64, size: u32) -> bool
    requires { IsPlaced «module».now world.now }
    ensures { result ≡ is_in_image (view_of «module».now) world.now at size }
{
    for k in 0..size {
        match at.checked_add(k as u64) {
            Some(address) if is_image_byte(module, world, address) => {}
            _ => return false,
        }
    }
    true
}

// The number that up to eight bytes of the image spell.
pub(crate) fn number_at(module: &Module, world: &World, at: u64, size: u32) -> u64
    requires placed { IsPlaced «module».now world.now }
    requires short { size ≤ 8 }
    requires inside { is_in_image (view_of «module».now) world.now at size ≡ true }
    ensures { result ≡ image_number (view_of «module».now) world.now at size }
{
    let mut word = [0; 8];
    for k in 0..size as usize {
        word[k] = byte_at(module, world, at + k as u64 - world.load);
    }
    read_u64(&word, 0).unwrap()
}
