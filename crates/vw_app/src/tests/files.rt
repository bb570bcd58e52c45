use std::alloc::{AllocError, Global};
use vw_bits::List;
use vw_dynamic::Dynamic;
use vw_elf::Elf;
use vw_image::Image;

/// A number of so many bytes at an offset: (offset, bytes, number). The lowest byte stands first.
pub type Patch = (usize, usize, u64);

/// Puts these numbers.
fn put_numbers(bytes: &mut Vec<u8>, patches: &[Patch]) {
    for (at, size, number) in patches {
        let digits = number.to_le_bytes();
        for index in 0..*size {
            let place = at.wrapping_add(index);
            if place < bytes.len() {
                bytes[place] = digits[index.min(7)];
            }
        }
    }
}

/// A file of a length with these numbers, where two lie over one another the later ones, and 0 elsewhere.
pub fn file_of(alloc: Global, len: usize, parts: &[&[Patch]]) -> Result<Vec<u8>, AllocError> {
    let mut bytes = vec![in alloc; 0u8; len]?;
    for patches in parts {
        put_numbers(&mut bytes, *patches);
    }
    Ok(bytes)
}

/// The image of a file. `None` where a rule is broken or memory is refused.
pub fn image_of(alloc: Global, bytes: Vec<u8>) -> Option<Image> {
    let bytes = List::from_vec(bytes);
    let Elf {
        segments,
        dynamics,
        symbols: _,
    } = Elf::read(alloc, bytes.as_slice()).ok()?;
    let dynamic = Dynamic::read(
        alloc,
        bytes.as_slice(),
        segments.as_slice(),
        dynamics.as_slice(),
    )
    .ok()?;
    Image::build(alloc, bytes, segments, dynamic).ok()
}
