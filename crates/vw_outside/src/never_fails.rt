ghost use Rattle.std.specs.Prelude.{◌≡◌, ◌+◌, ◌++◌, [], min, false, length, take, drop, Some, None, string_bytes, is_err, IsOk, IfOk, OnOk, OnErr};
ghost use Rattle.vw_outside.specs.Shelf.{Rose, NeverFell, SameFiles, Gave};
ghost use Rattle.vw_outside.specs.Memory.{NeverFailsState};

use crate::front::move_front;
use crate::{Failed, Shelf};
use std::marker::Model;
use vw_bits::List;

/// A shelf in memory that opens one file under every name and never fails. Before an `open` it gives
/// nothing.
#[derive(Drop)]
pub struct NeverFails {
    bytes: List<u8>,
    opened: Option<String>,
    given: usize,
}

impl Model for NeverFails {
    ghost use Rattle.std.specs.Prelude.{◌≤◌, length, option_map, string_bytes};
    ghost use Rattle.vw_outside.specs.Memory.{NeverFailsState, left_after_open};

    ghost Value = { NeverFailsState };

    ghost view = { λ s. record {
      bytes = s.bytes;
      opened = option_map string_bytes s.opened;
      left = left_after_open s.bytes (option_map string_bytes s.opened) s.given;
      given = s.given;
    } };

    ghost invariant = { λ s. s.given ≤ length s.bytes };
}

impl NeverFails {
    /// A shelf of these bytes, on which nothing was opened yet. Takes no memory.
    pub fn new(bytes: List<u8>) -> NeverFails
        ensures { result ≡ record {
          bytes = bytes;
          opened = None;
          left = [];
          given = 0;
        } }
    {
        NeverFails {
            bytes,
            opened: None,
            given: 0,
        }
    }
}

impl Shelf for NeverFails {
    ghost told = { λ s name. Some s.bytes };

    ghost left = { λ s. Some s.left };

    ghost given = { λ s. s.given };

    ghost opened = { λ s. s.opened };

    ghost failed = { λ s. false };

    ghost faults = { λ s. 0 };

    fn open(&mut self, name: String) -> Result<(), Failed>
        ensures files { SameFiles (λ name. Some self.old.bytes) (λ name. Some self.new.bytes) }
        ensures named { self.new.opened ≡ Some (string_bytes name) }
        ensures restarted { self.new.given ≡ 0 }
        ensures ok { OnOk result (Some self.new.left ≡ Some self.new.bytes) }
        ensures err { OnErr result (Rose 0 0) }
        ensures last { false ≡ is_err result }
        ensures count { NeverFell 0 0 }

        ensures succeeds { IsOk result }
        ensures after { self.new ≡ record self.old {
          opened = Some (string_bytes name);
          left = self.old.bytes;
          given = 0;
        } }
    {
        self.opened = Some(name);
        self.given = 0;
        Ok(())
    }

    fn read(&mut self, buf: &mut [u8]) -> Result<usize, Failed>
        ensures files { SameFiles (λ name. Some self.old.bytes) (λ name. Some self.new.bytes) }
        ensures named { self.new.opened ≡ self.old.opened }
        ensures bytes { IfOk result (λ count. Gave (Some self.old.left) (Some self.new.left) buf.new count) }
        ensures given { IfOk result (λ count. self.new.given ≡ self.old.given + count) }
        ensures kept { OnErr result (self.new.given ≡ self.old.given) }
        ensures err { OnErr result (Rose 0 0) }
        ensures last { false ≡ is_err result }
        ensures count { NeverFell 0 0 }

        ensures succeeds { IsOk result }
        ensures most { IfOk result (λ count. count ≡ min (length buf.old) (length self.old.left)) }
        ensures front { IfOk result (λ count. buf.new ≡ take count self.old.left ++ drop count buf.old) }
        ensures after { IfOk result (λ count. self.new ≡ record self.old {
          left = drop count self.old.left;
          given = self.old.given + count;
        }) }
    {
        if self.opened.is_none() {
            return Ok(0);
        }
        let count = move_front(&self.bytes.as_slice()[self.given..], buf);
        self.given += count;
        Ok(count)
    }
}
