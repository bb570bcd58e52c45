ghost use Rattle.std.specs.Prelude.{◌≡◌, ◌+◌, ◌-◌, ◌^◌, ◌<◌, ◌≤◌, true, false, length, Some, None, string_bytes, is_some, is_err, IsErr, IfOk, OnOk, OnErr};
ghost use Rattle.std.specs.Io.{ReadsAtMost};
ghost use Rattle.vw_outside.specs.Shelf.{Rose, NeverFell, SameFiles, Gave, untold};
ghost use Rattle.vw_outside.specs.Memory.{FileShelfState, next_count};

use crate::counts::one_more;
use crate::{Failed, Shelf};
use std::fs;
use std::io::{self, Input, Read};
use std::marker::Model;
use std::rt::Files;

/// Files of the system by their paths, and standard input by the name `-`. It tells no content.
///
/// Its count of faults rises at each error of std, at a read without an opened file, and at a read
/// whose buffer would take the number of bytes given past 2^64 - 1.
#[derive(Drop)]
pub struct FileShelf<'a, R: Files + Input> {
    rt: &'a R,
    source: Option<Source<R>>,
    opened: Option<String>,
    given: u64,
    failed: bool,
    faults: u64,
}

// What is open: a file, or standard input.
#[derive(Drop)]
enum Source<R: Files + Input> {
    File(R::File),
    Input(R::Reader),
}

impl<'a, R: Files + Input> Model for FileShelf<'a, R> {
    ghost use Rattle.std.specs.Prelude.{◌<◌, ◌^◌, is_some, option_map, string_bytes};
    ghost use Rattle.vw_outside.specs.Memory.{FileShelfState};

    ghost Value = { FileShelfState };

    ghost view = { λ s. record {
      is_open = is_some s.source;
      opened = option_map string_bytes s.opened;
      given = s.given;
      failed = s.failed;
      faults = s.faults;
    } };

    ghost invariant = { λ s. s.faults < 2 ^ 64 };
}

impl<'a, R: Files + Input> FileShelf<'a, R> {
    /// The files and the standard input of this runtime, of which nothing was opened yet. Takes no
    /// memory.
    pub fn new(rt: &'a R) -> FileShelf<'a, R>
        ensures { result ≡ record {
          is_open = false;
          opened = None;
          given = 0;
          failed = false;
          faults = 0;
        } }
    {
        FileShelf {
            rt,
            source: None,
            opened: None,
            given: 0,
            failed: false,
            faults: 0,
        }
    }
}

impl<'a, R: Files + Input> Shelf for FileShelf<'a, R> {
    ghost told = { λ _ _. untold };

    ghost left = { λ _. untold };

    ghost given = { λ s. s.given };

    ghost opened = { λ s. s.opened };

    ghost failed = { λ s. s.failed };

    ghost faults = { λ s. s.faults };

    fn open(&mut self, name: String) -> Result<(), Failed>
        ensures files { SameFiles (λ _. untold) (λ _. untold) }
        ensures named { self.new.opened ≡ Some (string_bytes name) }
        ensures restarted { self.new.given ≡ 0 }
        ensures ok { OnOk result (untold ≡ untold) }
        ensures err { OnErr result (Rose self.old.faults self.new.faults) }
        ensures last { self.new.failed ≡ is_err result }
        ensures count { NeverFell self.old.faults self.new.faults }

        ensures after_ok { OnOk result (self.new ≡ record self.old {
          is_open = true;
          opened = Some (string_bytes name);
          given = 0;
          failed = false;
        }) }
        ensures after_err { OnErr result (self.new ≡ record {
          is_open = false;
          opened = Some (string_bytes name);
          given = 0;
          failed = true;
          faults = next_count self.old.faults;
        }) }
    {
        let source = open_source(self.rt, name.as_str());
        let failed = source.is_err();
        self.source = source.ok();
        self.opened = Some(name);
        self.given = 0;
        self.failed = failed;
        if failed {
            self.faults = one_more(self.faults);
            return Err(Failed);
        }
        Ok(())
    }

    fn read(&mut self, buf: &mut [u8]) -> Result<usize, Failed>
        ensures files { SameFiles (λ _. untold) (λ _. untold) }
        ensures named { self.new.opened ≡ self.old.opened }
        ensures bytes { IfOk result (λ count. Gave untold untold buf.new count) }
        ensures given { IfOk result (λ count. self.new.given ≡ self.old.given + count) }
        ensures kept { OnErr result (self.new.given ≡ self.old.given) }
        ensures err { OnErr result (Rose self.old.faults self.new.faults) }
        ensures last { self.new.failed ≡ is_err result }
        ensures count { NeverFell self.old.faults self.new.faults }

        ensures closed { self.old.is_open ≡ false → IsErr result }
        ensures full { 2 ^ 64 - 1 < self.old.given + length buf.old → IsErr result }
        ensures after_ok { IfOk result (λ count. self.new ≡ record self.old {
          given = self.old.given + count;
          failed = false;
        }) }
        ensures after_err { OnErr result (self.new ≡ record self.old {
          failed = true;
          faults = next_count self.old.faults;
        }) }
    {
        match read_next(&mut self.source, self.given, buf) {
            Ok(count) => {
                self.given += count as u64;
                self.failed = false;
                Ok(count)
            }
            Err(_) => {
                self.failed = true;
                self.faults = one_more(self.faults);
                Err(Failed)
            }
        }
    }
}

// Opens a file, or standard input for the name `-`.
fn open_source<R: Files + Input>(rt: &R, name: &str) -> io::Result<Source<R>> {
    if name == "-" {
        return Ok(Source::Input(rt.reader()));
    }
    Ok(Source::File(fs::open(rt, name)?))
}

// One read of what is open, of which `given` bytes were given.
fn read_next<R: Files + Input>(
    source: &mut Option<Source<R>>,
    given: u64,
    buf: &mut [u8],
) -> Result<usize, Failed>
    ensures open { is_some source.new ≡ is_some source.old }
    ensures fits { IfOk result (λ count. (count ≤ length buf.new) × (given + count < 2 ^ 64)) }
    ensures closed { is_some source.old ≡ false → IsErr result }
    ensures full { 2 ^ 64 - 1 < given + length buf.old → IsErr result }
{
    if given > u64::MAX - buf.len() as u64 {
        return Err(Failed);
    }
    match source {
        None => Err(Failed),
        Some(source) => read_source(source, buf).map_err(|_| Failed),
    }
}

fn read_source<R: Files + Input>(source: &mut Source<R>, buf: &mut [u8]) -> io::Result<usize>
    ensures { ReadsAtMost result buf.new }
{
    match source {
        Source::File(file) => file.read(buf),
        Source::Input(reader) => reader.read(buf),
    }
}
