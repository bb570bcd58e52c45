ghost use Rattle.std.specs.Prelude.{◌≡◌, ◌≤◌, length};
ghost use Rattle.vw_rows.specs.Numbers.{IsBytes};
ghost use Rattle.vw_state.specs.Code.{code_at};

use vw_image::Image;
use vw_rows::as_bytes;
use vw_values::{Bounds, TableList};

/// A function of an image, with what its equations read of the module.
#[derive(Clone, Copy)]
pub struct Site<'a> {
    /// The image that the function is in.
    pub image: &'a Image,
    /// The address and the number of entries of each table of the module, in their order; at most 64.
    pub tables: &'a TableList,
    /// The address of the function's first byte, counted from the load address.
    pub entry: u64,
    /// Its size in bytes.
    pub size: u32,
    /// The bounds that values of its states may name (`bounds_of`).
    pub bounds: &'a Bounds,
}

impl<'a> Site<'a> {
    /// The bytes of the function in the file. There are none where these are not in the file part of one
    /// segment. Takes no memory.
    pub fn code(&self) -> &'a [u8]
        ensures code { result.now ≡ code_at self.now.image.now self.now.entry self.now.size }
        ensures size { length result.now ≤ self.now.size }
        ensures bytes { IsBytes result.now }
    {
        code_of(self.image, self.entry, self.size)
    }
}

/// The bytes of a function in the file, by the address of its first byte and its size. There are none where these are
/// not in the file part of one segment. Takes no memory.
pub fn code_of(image: &Image, entry: u64, size: u32) -> &[u8]
    ensures code { result.now ≡ code_at image.now entry size }
    ensures size { length result.now ≤ size }
    ensures bytes { IsBytes result.now }
{
    as_bytes(image.bytes_at(entry, size as u64).unwrap_or(&[]))
}
