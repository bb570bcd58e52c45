ghost use Rattle.std.specs.Prelude.{◌≡◌, ◌^◌, ◌+◌, ◌≤◌, length, take, drop};
ghost use Rattle.vw_bits.specs.Bounds.{AreBounded};
ghost use Rattle.vw_bits.specs.Places.{is_among, file_offset};

use crate::Segment;

/// Whether `size` bytes from `address` on are among the `len` bytes from `start` on. No bytes are there
/// where their address is that of one of these.
pub fn is_among(start: u64, len: u64, address: u64, size: u64) -> bool
    ensures { result ≡ is_among start len address size }
{
    start <= address && address - start < len && size <= len - (address - start)
}

/// The file offset of `size` bytes at an address, where they are in the file part of a segment; `None`
/// exactly where they are in that of none.
pub fn file_offset(segments: &[Segment], address: u64, size: u64) -> Option<u64>
    requires { AreBounded (2 ^ 64) segments.now }
    ensures { result ≡ file_offset segments.now address size }
{
    for segment in segments {
        if is_among(segment.vaddr, segment.filesz, address, size) {
            return Some(segment.offset + (address - segment.vaddr));
        }
    }
    None
}

/// The bytes of a file from an offset on, `size` of them, which the file holds.
pub fn bytes_at(bytes: &[u8], offset: u64, size: u64) -> &[u8]
    requires { offset + size ≤ length bytes.now }
    ensures { result.now ≡ take size (drop offset bytes.now) }
{
    &bytes[offset as usize..(offset + size) as usize]
}
