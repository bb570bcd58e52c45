ghost use Rattle.std.specs.Prelude.{◌≡◌, ◌+◌, ◌-◌, ◌^◌, ◌<◌, ◌≤◌, ◌⊎◌, ◌↔◌, [], true, false, length, Some, IfSome, IfOk, OnOk, vec_len};
ghost use Rattle.vw_outside.specs.Shelf.{Rose, SameFiles};
ghost use Rattle.vw_outside.specs.Reading.{OnFault, OnTooLong, OnMemory, UnlessMemory, IsTooLong, SplitsInto, Joined};

use crate::Shelf;
use std::alloc::Global;
use thiserror::Error;
use vw_bits::{List, OutOfMemory};

const PIECE: usize = 65_536;

/// Why a file was not read whole.
#[derive(Clone, Copy, Debug, PartialEq, Eq, Error)]
pub enum ReadError {
    /// A call of the shelf failed, and its count of faults rose.
    #[error("a call of the shelf failed")]
    Fault,
    /// The file has more bytes than the limit.
    #[error("the file is longer than the limit")]
    TooLong,
    /// Memory was refused, for the copy of the name, the buffer or the file's bytes.
    #[error("out of memory")]
    Memory(OutOfMemory),
}

/// Reads the whole file of this name, which has at most `limit` bytes, through a buffer of 65,536
/// bytes. It ends at a read of 0, after `limit` + 1 bytes, or at the first call that fails.
///
/// Fault comes only where the shelf's count of faults rose, the name opened last is `name`, and the
/// last call failed. TooLong comes exactly where the shelf gave `limit` + 1 bytes. Where memory is
/// refused, the shelf is as it was, or it was opened, no call failed, and at most `limit` bytes were
/// given.
pub fn read_all<F: Shelf>(
    alloc: Global,
    shelf: &mut F,
    name: &str,
    limit: u64,
) -> Result<List<u8>, ReadError>
    requires { limit < 2 ^ 64 - 1 }
    ensures files { SameFiles (F.told shelf.old) (F.told shelf.new) }
    ensures count { F.faults shelf.old ≤ F.faults shelf.new }

    ensures whole { IfOk result (λ read. IfSome (F.told shelf.old name.now) (λ bytes. read ≡ bytes)) }
    ensures given { IfOk result (λ read. F.given shelf.new ≡ length read) }
    ensures within { IfOk result (λ read. length read ≤ limit) }
    ensures ok_last { OnOk result (F.failed shelf.new ≡ false) }

    ensures named { UnlessMemory result (F.opened shelf.new ≡ Some name.now) }
    ensures fault { OnFault result (Rose (F.faults shelf.old) (F.faults shelf.new) × (F.failed shelf.new ≡ true)) }
    ensures too_long { UnlessMemory result (IsTooLong result ↔ (F.given shelf.new ≡ limit + 1)) }
    ensures at_most { UnlessMemory result (F.given shelf.new ≤ limit + 1) }
    ensures longer { OnTooLong result (IfSome (F.told shelf.old name.now) (λ bytes. limit < length bytes)) }
    ensures too_long_last { OnTooLong result (F.failed shelf.new ≡ false) }
    ensures memory { OnMemory result ((shelf.new ≡ shelf.old) ⊎ ((F.opened shelf.new ≡ Some name.now) × (F.failed shelf.new ≡ false) × (F.given shelf.new ≤ limit))) }
{
    let copy = String::from_str(alloc, name).map_err(|_| ReadError::Memory(OutOfMemory))?;
    let mut piece = room_for(alloc, PIECE).map_err(ReadError::Memory)?;
    shelf.open(copy).map_err(|_| ReadError::Fault)?;
    read_opened(alloc, shelf, &mut piece, limit)
}

// A buffer of `len` zeros.
fn room_for(alloc: Global, len: usize) -> Result<Vec<u8>, OutOfMemory>
    ensures { IfOk result (λ room. vec_len room ≡ len) }
{
    Ok(vec![in alloc; 0u8; len]?)
}

// All bytes of the file that was just opened, through `piece`.
fn read_opened<F: Shelf>(
    alloc: Global,
    shelf: &mut F,
    piece: &mut [u8],
    limit: u64,
) -> Result<List<u8>, ReadError>
    requires limit { limit < 2 ^ 64 - 1 }
    requires room { 0 < length piece.old }
    requires start { F.given shelf.old ≡ 0 }
    requires opened { F.failed shelf.old ≡ false }
    ensures files { SameFiles (F.told shelf.old) (F.told shelf.new) }
    ensures count { F.faults shelf.old ≤ F.faults shelf.new }
    ensures named { F.opened shelf.new ≡ F.opened shelf.old }
    ensures whole { IfOk result (λ read. IfSome (F.left shelf.old) (λ bytes. bytes ≡ read)) }
    ensures ok { IfOk result (λ read. (F.given shelf.new ≡ length read) × (length read ≤ limit) × (F.failed shelf.new ≡ false)) }
    ensures fault { OnFault result (Rose (F.faults shelf.old) (F.faults shelf.new) × (F.failed shelf.new ≡ true) × (F.given shelf.new ≤ limit)) }
    ensures too_long { OnTooLong result ((F.given shelf.new ≡ limit + 1) × (F.failed shelf.new ≡ false)) }
    ensures longer { OnTooLong result (IfSome (F.left shelf.old) (λ bytes. limit < length bytes)) }
    ensures memory { OnMemory result ((F.failed shelf.new ≡ false) × (F.given shelf.new ≤ limit)) }
{
    let mut bytes = Vec::new(alloc);
    loop {
        let missing = limit + 1 - bytes.len() as u64;
        let want = missing.min(piece.len() as u64) as usize;
        let count = read_onto(shelf, &mut piece[..want], &mut bytes, limit)?;
        if count == 0 {
            return Ok(List::from_vec(bytes));
        }
    }
}

// Reads into `piece` and appends what came. Where that passes the limit, nothing is appended.
fn read_onto<F: Shelf>(
    shelf: &mut F,
    piece: &mut [u8],
    bytes: &mut Vec<u8>,
    limit: u64,
) -> Result<usize, ReadError>
    requires limit { limit < 2 ^ 64 - 1 }
    requires room { 0 < length piece.old }
    requires space { length bytes.old.items + length piece.old ≤ limit + 1 }
    requires given { F.given shelf.old ≡ length bytes.old.items }
    ensures files { SameFiles (F.told shelf.old) (F.told shelf.new) }
    ensures count { F.faults shelf.old ≤ F.faults shelf.new }
    ensures named { F.opened shelf.new ≡ F.opened shelf.old }
    ensures ok { IfOk result (λ count. Joined (F.left shelf.old) (F.left shelf.new) bytes.old.items bytes.new.items (length piece.old) count) }
    ensures given { IfOk result (λ count. (F.given shelf.new ≡ length bytes.new.items) × (length bytes.new.items ≤ limit) × (F.failed shelf.new ≡ false)) }
    ensures fault { OnFault result (Rose (F.faults shelf.old) (F.faults shelf.new) × (F.failed shelf.new ≡ true) × (F.given shelf.new ≡ F.given shelf.old)) }
    ensures too_long { OnTooLong result ((F.given shelf.new ≡ limit + 1) × (F.failed shelf.new ≡ false)) }
    ensures longer { OnTooLong result (IfSome (F.left shelf.old) (λ rest. limit < length bytes.old.items + length rest)) }
    ensures memory { OnMemory result ((F.failed shelf.new ≡ false) × (F.given shelf.new ≤ limit)) }
{
    let count = shelf.read(piece).map_err(|_| ReadError::Fault)?;
    if bytes.len() as u64 + count as u64 > limit {
        return Err(ReadError::TooLong);
    }
    bytes
        .extend_from_slice(&piece[..count])
        .map_err(|_| ReadError::Memory(OutOfMemory))?;
    Ok(count)
}
