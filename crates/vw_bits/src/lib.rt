//! Words, little-endian fields, records of an ELF file, and text: what every other crate stands on.
#![tactic(auto)]

mod entries;
mod fields;
mod headers;
mod list;
mod memory;
mod places;
mod records;
mod rights;
mod strings;
mod text;
mod words;

pub use entries::{Dyn, Rela, Sym};
pub use fields::{Short, read_u16, read_u32, read_u64};
pub use headers::{FileHeader, ProgramHeader, SectionHeader};
pub use list::List;
pub use memory::OutOfMemory;
pub use places::{bytes_at, file_offset, is_among};
pub use records::{DynHeader, Segment, Symbol};
pub use rights::Rights;
pub use strings::short_string_at;
pub use text::Text;
pub use words::{draw, low32, sign_extend, sum};
