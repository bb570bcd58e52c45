ghost use Rattle.std.specs.Prelude.{◌≡◌, ◌+◌, ◌≤◌, ◌&&◌, length, take, drop, true, Some, None, option_copied, option_map, if◌then◌else◌};
ghost use Rattle.std.specs.List.{find};
ghost use Rattle.vw_bits.specs.Fields.{load};
ghost use Rattle.vw_bits.specs.Headers.{is_readable, is_executable};
ghost use Rattle.vw_bits.specs.Places.{in_memory, file_offset};
ghost use Rattle.vw_bits.specs.Bounds.{IsBounded, AreBounded};
ghost use Rattle.vw_image.specs.Bounds.{AllApart};
ghost use Rattle.vw_image.specs.Image.{segment_byte, memory_byte};
ghost use Rattle.vw_image.specs.Words.{in_readable};

use bitflags::Flags;
use vw_bits::{Rights, Segment, bytes_at, file_offset, is_among, read_u64};

// The first segment with the right to read in whose memory a range is.
pub(crate) fn readable_segment(segments: &[Segment], address: u64, size: u64) -> Option<&Segment>
    ensures { option_copied result ≡ find (λ s. is_readable s && in_memory address size s) segments.now }
{
    segments.iter().find(|s| s.rights.contains(Rights::R)
        && is_among(s.vaddr, s.memsz, address, size))
}

// The first segment with the right to execute in whose memory a range is.
pub(crate) fn executable_segment(segments: &[Segment], address: u64, size: u64) -> Option<&Segment>
    ensures { option_copied result ≡ find (λ s. is_executable s && in_memory address size s) segments.now }
{
    segments.iter().find(|s| s.rights.contains(Rights::X)
        && is_among(s.vaddr, s.memsz, address, size))
}

// The bytes of the file for a range in the file part of a segment.
pub(crate) fn file_bytes<'a>(
    bytes: &'a [u8],
    segments: &[Segment],
    address: u64,
    size: u64,
) -> Option<&'a [u8]>
    requires { AreBounded (length bytes.now) segments.now }
    ensures { option_copied result ≡ option_map (λ at. take size (drop at bytes.now)) (file_offset segments.now address size) }
{
    let offset = file_offset(segments, address, size)?;
    Some(bytes_at(bytes, offset, size))
}

// The byte at an address of a segment: zero past the bytes that the file holds.
pub(crate) fn byte_at(bytes: &[u8], segment: &Segment, address: u64) -> u8
    requires bounded { IsBounded (length bytes.now) segment.now }
    requires behind { segment.now.vaddr ≤ address }
    ensures { result ≡ segment_byte bytes.now segment.now address }
{
    let distance = address - segment.vaddr;
    if distance < segment.filesz {
        bytes[(segment.offset + distance) as usize]
    } else {
        0
    }
}

// The number that up to eight bytes of a segment's memory spell, the least significant first.
pub(crate) fn number_in(bytes: &[u8], segment: &Segment, address: u64, size: u32) -> u64
    requires bounded { IsBounded (length bytes.now) segment.now }
    requires held { in_memory address size segment.now ≡ true }
    requires short { size ≤ 8 }
    ensures { result ≡ load (segment_byte bytes.now segment.now) address size }
{
    let mut word = [0; 8];
    for k in 0..size as usize {
        word[k] = byte_at(bytes, segment, address + k as u64);
    }
    read_u64(&word, 0).unwrap()
}

// The number that up to eight bytes spell, where they are in the memory of a segment with the right to read.
pub(crate) fn readable_number(
    bytes: &[u8],
    segments: &[Segment],
    address: u64,
    size: u32,
) -> Option<u64>
    requires bounded { AreBounded (length bytes.now) segments.now }
    requires apart { AllApart segments.now }
    requires short { size ≤ 8 }
    ensures { result ≡ (if in_readable segments.now address size then Some (load (memory_byte bytes.now segments.now) address size) else None) }
{
    let segment = readable_segment(segments, address, size as u64)?;
    Some(number_in(bytes, segment, address, size))
}
