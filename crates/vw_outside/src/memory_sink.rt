ghost use Rattle.std.specs.Prelude.{◌≡◌, ◌++◌, [], length, Contains, Some, is_some, IsErr, IfOk, OnOk, OnErr};
ghost use Rattle.vw_outside.specs.Shelf.{Rose, NeverFell};
ghost use Rattle.vw_outside.specs.Sink.{Took};
ghost use Rattle.vw_outside.specs.Memory.{MemorySinkState, next_count};

use crate::counts::one_more;
use crate::{Failed, Sink};
use std::alloc::Global;
use std::marker::Model;
use vw_bits::List;

/// A sink in memory that fails at chosen calls.
///
/// Its writes are numbered from 1, a number that stays at 2^64 - 1. Those whose number is in `fail`
/// fail. Every other takes the whole piece or finds no memory, and one that finds no memory has
/// failed too.
#[derive(Drop)]
pub struct MemorySink {
    taken: Vec<u8>,
    fail: List<u64>,
    calls: u64,
    faults: u64,
}

impl Model for MemorySink {
    ghost use Rattle.std.specs.Prelude.{◌<◌, ◌^◌};
    ghost use Rattle.vw_outside.specs.Memory.{MemorySinkState};

    ghost Value = { MemorySinkState };

    ghost view = { λ s. record {
      taken = s.taken.items;
      fail = s.fail;
      calls = s.calls;
      faults = s.faults;
    } };

    ghost invariant = { λ s. s.faults < 2 ^ 64 };
}

impl MemorySink {
    /// A sink that took nothing yet, whose writes with the numbers in `fail` fail. Takes no memory
    /// itself: the bytes taken will come from `alloc`.
    pub fn new(alloc: Global, fail: List<u64>) -> MemorySink
        ensures { result ≡ record {
          taken = [];
          fail = fail;
          calls = 0;
          faults = 0;
        } }
    {
        MemorySink {
            taken: Vec::new(alloc),
            fail,
            calls: 0,
            faults: 0,
        }
    }

    /// The bytes taken so far.
    pub fn taken(&self) -> &[u8]
        ensures { result.now ≡ self.now.taken }
    {
        self.taken.as_slice()
    }
}

impl Sink for MemorySink {
    ghost written = { λ s. Some s.taken };

    ghost faults = { λ s. s.faults };

    fn write(&mut self, piece: &[u8]) -> Result<usize, Failed>
        ensures told { is_some (Some self.new.taken) ≡ is_some (Some self.old.taken) }
        ensures bytes { IfOk result (λ count. Took (Some self.old.taken) (Some self.new.taken) piece.now count) }
        ensures kept { OnErr result (Some self.new.taken ≡ Some self.old.taken) }
        ensures err { OnErr result (Rose self.old.faults self.new.faults) }
        ensures count { NeverFell self.old.faults self.new.faults }

        ensures fails { Contains self.old.fail (next_count self.old.calls) → IsErr result }
        ensures whole { IfOk result (λ count. count ≡ length piece.now) }
        ensures after_ok { OnOk result (self.new ≡ record self.old {
          taken = self.old.taken ++ piece.now;
          calls = next_count self.old.calls;
        }) }
        ensures after_err { OnErr result (self.new ≡ record self.old {
          calls = next_count self.old.calls;
          faults = next_count self.old.faults;
        }) }
    {
        let number = one_more(self.calls);
        self.calls = number;
        let listed = self.fail.as_slice().contains(&number);
        if listed || self.taken.extend_from_slice(piece).is_err() {
            self.faults = one_more(self.faults);
            return Err(Failed);
        }
        Ok(piece.len())
    }
}
