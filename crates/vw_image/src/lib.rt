//! The image of a module: its bytes in memory, before and after relocation, its words, and the stubs that stand
//! in it, which jump through a word.
#![tactic(auto)]

mod image;
mod index;
mod laws;
mod places;
mod stub;
mod word;

pub use image::Image;
pub use laws::{
    code_is_settled, file_bytes_are_memory, readable_is_settled, segments_are_bounded,
    words_are_numbered, words_spell,
};
pub use stub::{Stub, StubTo};
pub use word::Word;
