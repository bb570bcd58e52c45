ghost use Rattle.std.specs.Prelude.{◌≡◌, ℕ, List, Option, is_some, IfOk, OnErr};
ghost use Rattle.vw_outside.specs.Shelf.{Rose, NeverFell};
ghost use Rattle.vw_outside.specs.Sink.{Took};

use crate::Failed;

/// A place that takes bytes at its end.
///
/// Contracts speak of these meanings:
/// - `written`: the bytes written so far, where told. No call changes whether they are told;
/// - `faults`: a count of 64 bits that never falls. A call that fails raises it, save where it
///   stands at 2^64 - 1 already.
pub trait Sink {
    ghost written: { Self → Option (List ℕ) };

    ghost faults: { Self → ℕ };

    /// Appends the first bytes of `piece` and answers how many they are, at least 1 for a piece that
    /// is not empty. Failed comes only where the count of faults rose, and nothing is appended then.
    fn write(&mut self, piece: &[u8]) -> Result<usize, Failed>
        ensures told { is_some (written self.new) ≡ is_some (written self.old) }
        ensures bytes { IfOk result (λ count. Took (written self.old) (written self.new) piece.now count) }
        ensures kept { OnErr result (written self.new ≡ written self.old) }
        ensures err { OnErr result (Rose (faults self.old) (faults self.new)) }
        ensures count { NeverFell (faults self.old) (faults self.new) };
}
