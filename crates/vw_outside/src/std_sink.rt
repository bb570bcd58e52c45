ghost use Rattle.std.specs.Prelude.{◌≡◌, is_some, IfOk, OnOk, OnErr};
ghost use Rattle.std.specs.Io.{WritesAtMost};
ghost use Rattle.vw_outside.specs.Shelf.{Rose, NeverFell, untold};
ghost use Rattle.vw_outside.specs.Sink.{Took};
ghost use Rattle.vw_outside.specs.Memory.{next_count};

use crate::counts::one_more;
use crate::{Failed, Sink};
use std::io::{self, Print, Write};
use std::marker::Model;

/// Standard output. It tells no content, and contracts see it as its count of faults: the writes that
/// std reported as failed, and those that took nothing of a piece that is not empty.
#[derive(Drop)]
pub struct StdSink<'a, R: Print> {
    rt: &'a R,
    faults: u64,
}

impl<'a, R: Print> Model for StdSink<'a, R> {
    ghost use Rattle.std.specs.Prelude.{ℕ, ◌<◌, ◌^◌};

    ghost Value = { ℕ };

    ghost view = { λ s. s.faults };

    ghost invariant = { λ s. s.faults < 2 ^ 64 };
}

impl<'a, R: Print> StdSink<'a, R> {
    /// The standard output of this runtime, whose count of faults is 0. Takes no memory.
    pub fn new(rt: &'a R) -> StdSink<'a, R>
        ensures { result ≡ 0 }
    {
        StdSink { rt, faults: 0 }
    }
}

impl<'a, R: Print> Sink for StdSink<'a, R> {
    ghost written = { λ _. untold };

    ghost faults = { λ faults. faults };

    fn write(&mut self, piece: &[u8]) -> Result<usize, Failed>
        ensures told { is_some untold ≡ is_some untold }
        ensures bytes { IfOk result (λ count. Took untold untold piece.now count) }
        ensures kept { OnErr result (untold ≡ untold) }
        ensures err { OnErr result (Rose self.old self.new) }
        ensures count { NeverFell self.old self.new }

        ensures after_ok { OnOk result (self.new ≡ self.old) }
        ensures after_err { OnErr result (self.new ≡ next_count self.old) }
    {
        match write_to(self.rt, piece) {
            Ok(count) if count > 0 || piece.is_empty() => Ok(count),
            _ => {
                self.faults = one_more(self.faults);
                Err(Failed)
            }
        }
    }
}

// One write to standard output.
fn write_to<R: Print>(rt: &R, piece: &[u8]) -> io::Result<usize>
    ensures { WritesAtMost result piece.now }
{
    io::writer(rt).write(piece)
}
