ghost use Rattle.std.specs.Prelude.{◌≡◌, ℕ, ◌+◌, ◌^◌, ◌≤◌, ◌<◌, ◌↔◌, ◌⊎◌, ◌++◌, [], min, true, false, length, take, drop, Contains, string_bytes, unwrap_or, MatchOption, is_err, Some, None, IsErr, IfOk, OnOk, OnErr};
ghost use Rattle.vw_outside.specs.Shelf.{Rose, NeverFell, SameFiles, Gave};
ghost use Rattle.vw_outside.specs.Memory.{MemoryShelfState, next_count, file_of, bytes_at};

use crate::counts::one_more;
use crate::front::move_front;
use crate::{Failed, Shelf};
use std::marker::Model;
use vw_bits::{List, Text};

/// A file of a shelf in memory: its name and its bytes.
#[derive(Drop)]
pub struct ShelfFile {
    pub name: Text,
    pub bytes: List<u8>,
}

/// A shelf in memory that fails at chosen calls.
///
/// Its calls of `open` and `read` are numbered from 1, a number that stays at 2^64 - 1. Those whose
/// number is in `fail` fail. So does the opening of a name that no file has, and a read without an
/// opened file; after an `open` that failed there is none. Of several files of one name the first
/// counts. A read gives as many bytes as fit.
#[derive(Drop)]
pub struct MemoryShelf {
    files: List<ShelfFile>,
    fail: List<u64>,
    calls: u64,
    opened: Option<String>,
    file: Option<usize>,
    given: usize,
    failed: bool,
    faults: u64,
}

impl Model for MemoryShelf {
    ghost use Rattle.std.specs.Prelude.{◌≤◌, ◌<◌, length, option_map, string_bytes, MatchOption, ⊤};
    ghost use Rattle.vw_outside.specs.Memory.{MemoryShelfState, left_of, bytes_at};

    ghost Value = { MemoryShelfState };

    ghost view = { λ s. record {
      files = s.files;
      fail = s.fail;
      calls = s.calls;
      opened = option_map string_bytes s.opened;
      left = left_of s.files s.file s.given;
      given = s.given;
      failed = s.failed;
      faults = s.faults;
    } };

    ghost invariant = { λ s. MatchOption s.file ⊤ (λ at. (at < length s.files) × (s.given ≤ length (bytes_at s.files at))) };
}

impl MemoryShelf {
    /// A shelf of these files on which nothing was opened yet, whose calls with the numbers in `fail`
    /// fail. Takes no memory.
    pub fn new(files: List<ShelfFile>, fail: List<u64>) -> MemoryShelf
        ensures { result ≡ record {
          files = files;
          fail = fail;
          calls = 0;
          opened = None;
          left = None;
          given = 0;
          failed = false;
          faults = 0;
        } }
    {
        MemoryShelf {
            files,
            fail,
            calls: 0,
            opened: None,
            file: None,
            given: 0,
            failed: false,
            faults: 0,
        }
    }
}

impl Shelf for MemoryShelf {
    ghost told = { λ s. file_of s.files };

    ghost left = { λ s. s.left };

    ghost given = { λ s. s.given };

    ghost opened = { λ s. s.opened };

    ghost failed = { λ s. s.failed };

    ghost faults = { λ s. s.faults };

    fn open(&mut self, name: String) -> Result<(), Failed>
        ensures files { SameFiles (file_of self.old.files) (file_of self.new.files) }
        ensures named { self.new.opened ≡ Some (string_bytes name) }
        ensures restarted { self.new.given ≡ 0 }
        ensures ok { OnOk result (self.new.left ≡ file_of self.new.files (string_bytes name)) }
        ensures err { OnErr result (Rose self.old.faults self.new.faults) }
        ensures last { self.new.failed ≡ is_err result }
        ensures count { NeverFell self.old.faults self.new.faults }

        ensures fails { IsErr result ↔ (Contains self.old.fail (next_count self.old.calls) ⊎ (file_of self.old.files (string_bytes name) ≡ None)) }
        ensures after_ok { OnOk result (self.new ≡ record self.old {
          calls = next_count self.old.calls;
          opened = Some (string_bytes name);
          left = file_of self.old.files (string_bytes name);
          given = 0;
          failed = false;
        }) }
        ensures after_err { OnErr result (self.new ≡ record self.old {
          calls = next_count self.old.calls;
          opened = Some (string_bytes name);
          left = None;
          given = 0;
          failed = true;
          faults = next_count self.old.faults;
        }) }
    {
        let number = one_more(self.calls);
        self.calls = number;
        self.given = 0;
        self.file = if self.fail.as_slice().contains(&number) {
            None
        } else {
            index_of(self.files.as_slice(), name.as_bytes())
        };
        self.opened = Some(name);
        self.failed = self.file.is_none();
        if self.failed {
            self.faults = one_more(self.faults);
            return Err(Failed);
        }
        Ok(())
    }

    fn read(&mut self, buf: &mut [u8]) -> Result<usize, Failed>
        ensures files { SameFiles (file_of self.old.files) (file_of self.new.files) }
        ensures named { self.new.opened ≡ self.old.opened }
        ensures bytes { IfOk result (λ count. Gave self.old.left self.new.left buf.new count) }
        ensures given { IfOk result (λ count. self.new.given ≡ self.old.given + count) }
        ensures kept { OnErr result (self.new.given ≡ self.old.given) }
        ensures err { OnErr result (Rose self.old.faults self.new.faults) }
        ensures last { self.new.failed ≡ is_err result }
        ensures count { NeverFell self.old.faults self.new.faults }

        ensures fails { IsErr result ↔ (Contains self.old.fail (next_count self.old.calls) ⊎ (self.old.left ≡ None)) }
        ensures most { IfOk result (λ count. count ≡ min (length buf.old) (length (unwrap_or self.old.left []))) }
        ensures front { IfOk result (λ count. buf.new ≡ take count (unwrap_or self.old.left []) ++ drop count buf.old) }
        ensures after_ok { IfOk result (λ count. self.new ≡ record self.old {
          calls = next_count self.old.calls;
          left = Some (drop count (unwrap_or self.old.left []));
          given = self.old.given + count;
          failed = false;
        }) }
        ensures buffer { OnErr result (buf.new ≡ buf.old) }
        ensures after_err { OnErr result (self.new ≡ record self.old {
          calls = next_count self.old.calls;
          failed = true;
          faults = next_count self.old.faults;
        }) }
    {
        let number = one_more(self.calls);
        self.calls = number;
        let listed = self.fail.as_slice().contains(&number);
        match self.file {
            Some(at) if !listed => {
                let count = move_front(unread(self.files.as_slice(), at, self.given), buf);
                self.given += count;
                self.failed = false;
                Ok(count)
            }
            _ => {
                self.failed = true;
                self.faults = one_more(self.faults);
                Err(Failed)
            }
        }
    }
}

// The index of the first file of a name.
fn index_of(files: &[ShelfFile], name: &[u8]) -> Option<usize>
    ensures { MatchOption result (file_of files.now name.now ≡ None) (λ at. (at < length files.now) × (file_of files.now name.now ≡ Some (bytes_at files.now at))) }
{
    files.iter().position(|file| file.name.as_slice() == name)
}

// The bytes of the file at an index that stand after the first `given`.
fn unread(files: &[ShelfFile], at: usize, given: usize) -> &[u8]
    requires there { at < length files.now }
    requires within { given ≤ length (bytes_at files.now at) }
    ensures rest { result.now ≡ drop given (bytes_at files.now at) }
    ensures fits { given + length result.now < 2 ^ 64 }
{
    &files[at].bytes.as_slice()[given..]
}
