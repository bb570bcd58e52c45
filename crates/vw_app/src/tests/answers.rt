ghost use Rattle.std.specs.Prelude.{◌^◌, ◌<◌, Some};

use super::fixtures::{USAGE, expect, heap_read, one_file, strings};
use crate::program::run;
use crate::status::Status;
use std::test::Fail;
use vw_outside::{Failed, Sink};

// Words that are no form of the program.
#[test]
fn words(rt: HostRuntime) -> Result<(), Fail> {
    let file = heap_read(rt.alloc())?;
    for words in [
        [].as_slice(),
        &["verify"],
        &["-", "verify"],
        &["verify", "-", "-"],
        &["list"],
        &["report"],
        &["report", "-", "-"],
        &["verify", "m", "m"],
        &["info"],
        &["check"],
        &["check", "-"],
        &["check", "-", "-", "-"],
        &["-", "check", "-"],
    ] {
        let mut shelf = one_file(rt.alloc(), "-", file.as_slice(), &[])?;
        expect(&rt, words, &mut shelf, &[], (3, USAGE))?;
    }
    Ok(())
}

// An open, the piece with the whole file, and the read that finds its end: each may fail. So may the
// first write, and a shelf may lack the file.
#[test]
fn faults(rt: HostRuntime) -> Result<(), Fail> {
    let file = heap_read(rt.alloc())?;
    assert_eq!(rt; file.as_slice().len(), 376);
    let fault = (4, "read fault\n");
    let safe = (0, "safe, functions 1\n");
    let cases: [(&str, &[u64], &[u64], (u8, &str)); 6] = [
        ("-", &[1], &[], fault),
        ("-", &[2], &[], fault),
        ("-", &[3], &[], fault),
        ("-", &[4], &[2], safe),
        ("m", &[], &[], fault),
        ("-", &[], &[1], (5, "")),
    ];
    for (name, reads, writes, answer) in cases {
        let mut shelf = one_file(rt.alloc(), name, file.as_slice(), reads)?;
        expect(&rt, &["verify", "-"], &mut shelf, writes, answer)?;
    }
    Ok(())
}

// A file of two pieces: an open, the pieces, and the read that finds its end. Each may fail.
#[test]
fn pieces(rt: HostRuntime) -> Result<(), Fail> {
    let mut file = heap_read(rt.alloc())?;
    file.resize(65_537, 0)?;
    let fault = (4, "read fault\n");
    let safe = (0, "safe, functions 1\n");
    for (call, answer) in [(2, fault), (3, fault), (4, fault), (5, safe)] {
        let mut shelf = one_file(rt.alloc(), "-", file.as_slice(), &[call])?;
        expect(&rt, &["verify", "-"], &mut shelf, &[], answer)?;
    }
    Ok(())
}

// A sink that takes one byte at a time and then fails.
#[test]
fn narrow_sinks(rt: HostRuntime) -> Result<(), Fail> {
    let file = heap_read(rt.alloc())?;
    let words = strings(rt.alloc(), &["verify", "-"])?;
    for (room, status, taken) in [
        (0u8, 5, ""),
        (5, 5, "safe,"),
        (18, 0, "safe, functions 1\n"),
    ] {
        let mut sink = Narrow {
            taken: Vec::new(rt.alloc()),
            room,
            faults: 0,
        };
        let mut shelf = one_file(rt.alloc(), "-", file.as_slice(), &[])?;
        let got = run(rt.alloc(), words.as_slice(), &mut shelf, &mut sink);
        assert_eq!(rt; got, Status(status));
        assert_eq!(rt; sink.taken.as_slice(), taken.as_bytes());
    }
    Ok(())
}

// A sink that takes a byte of each piece, up to a number of bytes.
#[derive(Drop)]
struct Narrow {
    taken: Vec<u8>,
    room: u8,
    faults: u64,
    ghost small: { faults < 2 ^ 64 },
}

impl Sink for Narrow {
    ghost written = { λ s. Some s.taken.items };

    ghost faults = { λ s. s.faults };

    fn write(&mut self, piece: &[u8]) -> Result<usize, Failed> {
        if piece.is_empty() {
            return Ok(0);
        }
        if self.room == 0 || self.taken.push(piece[0]).is_err() {
            self.faults = self.faults.saturating_add(1);
            return Err(Failed);
        }
        self.room -= 1;
        Ok(1)
    }
}
