ghost use Rattle.std.specs.Prelude.{◌≡◌, ◌≤◌, is_some, OnOk, OnErr};
ghost use Rattle.vw_outside.specs.Shelf.{Rose};
ghost use Rattle.vw_outside.specs.Sink.{Appended, AppendedFront};

use crate::{Failed, Sink};

/// Writes the whole piece, in as many writes as the sink asks for. It ends at the first write that
/// fails: the count of faults rose then, and a front part of `piece` was written. Takes no memory.
pub fn write_all_of<K: Sink>(sink: &mut K, piece: &[u8]) -> Result<(), Failed>
    ensures told { is_some (K.written sink.new) ≡ is_some (K.written sink.old) }
    ensures ok { OnOk result (Appended (K.written sink.old) (K.written sink.new) piece.now) }
    ensures err { OnErr result (Rose (K.faults sink.old) (K.faults sink.new)) }
    ensures front { AppendedFront (K.written sink.old) (K.written sink.new) piece.now }
    ensures count { K.faults sink.old ≤ K.faults sink.new }
{
    let mut done = 0;
    while done < piece.len() {
        let count = sink.write(&piece[done..])?;
        done += count;
    }
    Ok(())
}
