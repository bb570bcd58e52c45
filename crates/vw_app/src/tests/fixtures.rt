//! What tests share: shelves, answers, and modules by their code.

ghost use Rattle.std.specs.Prelude.{◌<◌};

use super::smallest::smallest_module;
use crate::program::run;
use crate::status::Status;
use std::alloc::Global;
use std::process::Abort;
use std::test::Fail;
use vw_bits::{List, Text};
use vw_outside::{MemoryShelf, MemorySink, Shelf, ShelfFile};

/// The line that answers words of no form.
pub const USAGE: &str =
    "usage: vw verify FILE | report FILE | check FILE REPORT | list FILE | info FILE | trace FILE FUNCTION STEPS NUMBER | make FUNCTIONS NUMBER | selftest FUNCTIONS NUMBER\n";

/// A switch: three cases by a table of jumps behind the code, whose fourth entry leads out of the function, with the
/// bound that the table needs.
pub const SWITCH: &str = "83fe03731489f0488d0d0c0000004863048\
                          14801c8ffe0c3c3c3fdfffffffeffffffffffffff00100000";
/// The same with a bound of one entry more: `ja` for `jae`.
pub const SWITCH_ABOVE: &str = "83fe03771489f0488d0d0c0000004863048\
                                14801c8ffe0c3c3c3fdfffffffeffffffffffffff00100000";

/// These words as strings.
pub fn strings(alloc: Global, words: &[&str]) -> Result<Vec<String>, Fail> {
    let mut strings = Vec::new(alloc);
    for word in words {
        strings.push(String::from_str(alloc, word)?)?;
    }
    Ok(strings)
}

fn numbers(alloc: Global, items: &[u64]) -> Result<List<u64>, Fail> {
    let mut list = List::new(alloc);
    for item in items {
        list.push(*item)?;
    }
    Ok(list)
}

fn shelf_file(alloc: Global, name: &str, bytes: &[u8]) -> Result<ShelfFile, Fail> {
    let mut text = Text::new(alloc);
    text.push(name.as_bytes())?;
    Ok(ShelfFile {
        name: text,
        bytes: List::from_vec(bytes.to_vec(alloc)?),
    })
}

/// A shelf with one file, whose calls with these numbers fail.
pub fn one_file(
    alloc: Global,
    name: &str,
    bytes: &[u8],
    fail: &[u64],
) -> Result<MemoryShelf, Fail> {
    let mut files = List::new(alloc);
    files.push(shelf_file(alloc, name, bytes)?)?;
    Ok(MemoryShelf::new(files, numbers(alloc, fail)?))
}

/// A shelf with two files, `m` and `r`, whose calls with these numbers fail.
pub fn two_files(alloc: Global, m: &[u8], r: &[u8], fail: &[u64]) -> Result<MemoryShelf, Fail> {
    let mut files = List::new(alloc);
    files.push(shelf_file(alloc, "m", m)?)?;
    files.push(shelf_file(alloc, "r", r)?)?;
    Ok(MemoryShelf::new(files, numbers(alloc, fail)?))
}

/// The status and what is taken of the answer to the words, where writes with these numbers fail.
pub fn answer<F: Shelf>(
    alloc: Global,
    words: &[&str],
    shelf: &mut F,
    fail: &[u64],
) -> Result<(Status, MemorySink), Fail> {
    let words = strings(alloc, words)?;
    let mut sink = MemorySink::new(alloc, numbers(alloc, fail)?);
    let status = run(alloc, words.as_slice(), shelf, &mut sink);
    Ok((status, sink))
}

/// Asserts the status and the text of an answer.
pub fn expect<F: Shelf>(
    rt: &(impl Abort + AllocGlobal),
    words: &[&str],
    shelf: &mut F,
    fail: &[u64],
    (status, text): (u8, &str),
) -> Result<(), Fail> {
    let (got, sink) = answer(rt.alloc(), words, shelf, fail)?;
    assert_eq!(rt; got, Status(status));
    assert_eq!(rt; sink.taken(), text.as_bytes());
    Ok(())
}

/// Puts these bytes in the place of those at an offset.
pub fn patch(bytes: &mut Vec<u8>, at: usize, piece: &[u8]) {
    for (index, byte) in piece.iter().enumerate() {
        if let Some(place) = bytes.get_mut(at.saturating_add(index)) {
            *place = *byte;
        }
    }
}

/// The module of the smallest read of the heap.
pub fn heap_read(alloc: Global) -> Result<Vec<u8>, Fail> {
    smallest_module(alloc, &[0x8B, 0x87, 0, 0, 0, 0, 0xC3])
}

/// The module of a function by its code, of at most 100 bytes.
pub fn module_of(rt: &(impl Abort + AllocGlobal), hex: &str) -> Result<Vec<u8>, Fail> {
    let code = from_hex(rt.alloc(), hex)?;
    assert!(rt; code.len() <= 100);
    smallest_module(rt.alloc(), code.as_slice())
}

fn from_hex(alloc: Global, hex: &str) -> Result<Vec<u8>, Fail> {
    let mut bytes = Vec::new(alloc);
    for pair in hex.as_bytes().chunks(2) {
        if let [high, low] = pair {
            bytes.push(digit(*high) * 16 + digit(*low))?;
        }
    }
    Ok(bytes)
}

fn digit(glyph: u8) -> u8
    ensures { result < 16 }
{
    match glyph {
        b'0'..=b'9' => glyph - b'0',
        b'a'..=b'f' => glyph - b'a' + 10,
        _ => 0,
    }
}
