ghost use Rattle.std.specs.Prelude.{◌≡◌, ℕ, ◌+◌, Bool, List, Option, Some, string_bytes, is_err, IfOk, OnOk, OnErr};
ghost use Rattle.vw_outside.specs.Shelf.{Rose, NeverFell, SameFiles, Gave};

use crate::Failed;

/// Named files that are opened and read from the front, one at a time.
///
/// Contracts speak of these meanings:
/// - `told`: the bytes of the file of each name, where the shelf tells them. No call changes a
///   file's bytes, or whether they are told;
/// - `left`: the bytes of the opened file that are still to be read, where told;
/// - `given`: the number of bytes given since the last `open`;
/// - `opened`: the name opened last, if any;
/// - `failed`: whether the last call failed;
/// - `faults`: a count of 64 bits that never falls. A call that fails raises it, save where it
///   stands at 2^64 - 1 already.
pub trait Shelf {
    ghost told: { Self → List ℕ → Option (List ℕ) };

    ghost left: { Self → Option (List ℕ) };

    ghost given: { Self → ℕ };

    ghost opened: { Self → Option (List ℕ) };

    ghost failed: { Self → Bool };

    ghost faults: { Self → ℕ };

    /// Opens the file of this name at its first byte. The name is kept as the name opened last, and
    /// the number of bytes given is 0 from here, also where the call fails. Failed comes only where
    /// the count of faults rose.
    fn open(&mut self, name: String) -> Result<(), Failed>
        ensures files { SameFiles (told self.old) (told self.new) }
        ensures named { opened self.new ≡ Some (string_bytes name) }
        ensures restarted { given self.new ≡ 0 }
        ensures ok { OnOk result (left self.new ≡ told self.new (string_bytes name)) }
        ensures err { OnErr result (Rose (faults self.old) (faults self.new)) }
        ensures last { failed self.new ≡ is_err result }
        ensures count { NeverFell (faults self.old) (faults self.new) };

    /// Moves the next bytes of the opened file to the front of `buf` and answers how many they are:
    /// 0 exactly at the end of the file or for an empty `buf`. Failed comes only where the count of
    /// faults rose, and leaves the number of bytes given.
    fn read(&mut self, buf: &mut [u8]) -> Result<usize, Failed>
        ensures files { SameFiles (told self.old) (told self.new) }
        ensures named { opened self.new ≡ opened self.old }
        ensures bytes { IfOk result (λ count. Gave (left self.old) (left self.new) buf.new count) }
        ensures given { IfOk result (λ count. given self.new ≡ given self.old + count) }
        ensures kept { OnErr result (given self.new ≡ given self.old) }
        ensures err { OnErr result (Rose (faults self.old) (faults self.new)) }
        ensures last { failed self.new ≡ is_err result }
        ensures count { NeverFell (faults self.old) (faults self.new) };
}
