ghost use Rattle.std.specs.Prelude.{◌≡◌, length, None, option_copied, IfOk, IfSome};
ghost use Rattle.vw_bits.specs.Headers.{segments_of};
ghost use Rattle.vw_bits.specs.HeaderRules.{header_fault};
ghost use Rattle.vw_dynamic.specs.Dynamic.{dynamic_fault, file_relocations, file_imports};
ghost use Rattle.vw_image.specs.Image.{image_of, IsImage};
ghost use Rattle.vw_image.specs.Words.{word_at, readable, bytes_at, word_of_kind};
ghost use Rattle.vw_image.specs.Stubs.{stub_at, IsBound};
ghost use Rattle.vw_image.specs.Laws.{IsSize, IsNumbered};

use crate::index::{bound_by_place, by_place, touches};
use crate::places::{file_bytes, readable_number, readable_segment};
use crate::stub::{slot_at, stub_to};
use crate::{Stub, Word};
use std::alloc::Global;
use std::collections::BTreeMap;
use std::marker::Model;
use vw_bits::{List, OutOfMemory, Segment};
use vw_dynamic::{Dynamic, Imports, RelKind};

/// The image of a file that meets rules 1 to 26: its bytes in memory with what relocation makes of them.
/// Contracts see its contents: the file's bytes, its segments, its relocations and the names of its imports.
/// Addresses count from the load address. No query walks over all relocations.
#[derive(Debug, Drop)]
pub struct Image {
    bytes: List<u8>,
    segments: List<Segment>,
    dynamic: Dynamic,
    /// The relocations by place.
    places: BTreeMap<u64, RelKind>,
    /// Those that bind an import, by place.
    bindings: BTreeMap<u64, RelKind>,
}

impl Model for Image {
    ghost use Rattle.vw_image.specs.Image.{Contents, IsImage};
    ghost use Rattle.vw_image.specs.Index.{IsIndex, bound_ones};

    ghost Value = { Contents };

    ghost view = { λ image. record { bytes = image.bytes; segments = image.segments; relocations = image.dynamic.relocations; imports = image.dynamic.imports } };

    ghost invariant = { λ image.
        IsImage (record { bytes = image.bytes; segments = image.segments; relocations = image.dynamic.relocations; imports = image.dynamic.imports })
        × IsIndex image.places image.dynamic.relocations
        × IsIndex image.bindings (bound_ones image.dynamic.relocations) };
}

impl Image {
    /// The image of a file that meets rules 1 to 26, from its bytes, its segments and what its dynamic section
    /// gives. OutOfMemory where the allocator refuses a request.
    pub fn build(
        alloc: Global,
        bytes: List<u8>,
        segments: List<Segment>,
        dynamic: Dynamic,
    ) -> Result<Image, OutOfMemory>
        requires headers { header_fault bytes ≡ None }
        requires rules { dynamic_fault bytes ≡ None }
        requires segments { segments ≡ segments_of bytes }
        requires relocations { dynamic.relocations ≡ file_relocations bytes }
        requires imports { dynamic.imports ≡ file_imports bytes }
        ensures { IfOk result (λ image. image ≡ image_of bytes) }
    {
        let relocations = dynamic.relocations.as_slice();
        let places = by_place(alloc, relocations)?;
        let bindings = bound_by_place(alloc, relocations)?;
        Ok(Image {
            bytes,
            segments,
            dynamic,
            places,
            bindings,
        })
    }

    /// The bytes of the file. Takes no memory.
    pub fn bytes(&self) -> &[u8]
        ensures lent { result.now ≡ self.now.bytes }
        ensures whole { IsImage self.now }
    {
        self.bytes.as_slice()
    }

    /// The file's loadable segments, in the order of their program headers. Takes no memory.
    pub fn segments(&self) -> &[Segment]
        ensures lent { result.now ≡ self.now.segments }
        ensures whole { IsImage self.now }
    {
        self.segments.as_slice()
    }

    /// The names of the file's imports. Takes no memory.
    pub fn imports(&self) -> &Imports
        ensures lent { result.now ≡ self.now.imports }
        ensures whole { IsImage self.now }
    {
        &self.dynamic.imports
    }

    /// What the `size` bytes at an address hold after relocation; `size` is 1, 2, 4 or 8. Based or Bound where
    /// `size` is 8 and a relocation stands exactly there; Mixed where a relocation changes some of the bytes
    /// otherwise; Outside where they are not in the memory of one segment with the right to read; else Plain.
    /// The number of a Bound word is one of an import. Takes no memory.
    pub fn word_at(&self, a: u64, size: u32) -> Word
        requires { IsSize size }
        ensures value { result ≡ word_at self.now a size }
        ensures numbered { IsNumbered (length self.now.imports) result }
    {
        if size == 8 {
            if let Some(kind) = self.places.get(&a) {
                return word_of_kind(*kind);
            }
        }
        if touches(&self.places, a, size as u64) {
            return Word::Mixed;
        }
        match readable_number(self.bytes.as_slice(), self.segments.as_slice(), a, size) {
            Some(number) => Word::Plain(number),
            None => Word::Outside,
        }
    }

    /// Whether `n` bytes from an address on are in the memory of one segment with the right to read, and no
    /// relocation that binds an import changes one of them. No bytes are so where the address is that of a
    /// segment's byte. Takes no memory.
    pub fn readable(&self, a: u64, n: u64) -> bool
        ensures { result ≡ readable self.now a n }
    {
        readable_segment(self.segments.as_slice(), a, n).is_some() && !touches(&self.bindings, a, n)
    }

    /// The bytes of the file for `n` bytes from an address on; `None` exactly where these are not in the file
    /// part of one segment. No bytes are in it where the address is that of one of its bytes. Takes no memory.
    pub fn bytes_at(&self, a: u64, n: u64) -> Option<&[u8]>
        ensures { option_copied result ≡ bytes_at self.now a n }
    {
        file_bytes(self.bytes.as_slice(), self.segments.as_slice(), a, n)
    }

    /// The stub at an address: a jump through a word that is bound to an import or based, where the bytes
    /// `FF 25 disp32` stand there in the memory of one segment with the right to execute, or these behind
    /// ENDBR64, `F3 0F 1E FA`, or behind ENDBR64 and F2. `None` exactly where there is none. Whether the address
    /// of a based word is one to jump to is left to the caller. The number of an import is one of an import. Takes
    /// no memory.
    pub fn stub_at(&self, a: u64) -> Option<Stub>
        ensures value { result ≡ stub_at self.now a }
        ensures numbered { IfSome result (λ stub. IsBound (length self.now.imports) stub.to) }
    {
        let slot = slot_at(self.bytes.as_slice(), self.segments.as_slice(), a)?;
        stub_to(slot, self.word_at(slot, 8))
    }
}

fn word_of_kind(kind: RelKind) -> Word
    ensures { result ≡ word_of_kind kind }
{
    match kind {
        RelKind::Based(addend) => Word::Based(addend),
        RelKind::Bound(number) => Word::Bound(number),
    }
}
