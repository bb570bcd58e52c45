ghost use Rattle.std.specs.Prelude.{Some};

use crate::counts::one_more;
use crate::{
    Failed, FileShelf, MemoryShelf, MemorySink, NeverFails, ReadError, Shelf, ShelfFile, Sink,
    StdSink, read_all, write_all_of,
};
use std::alloc::Global;
use std::test::Fail;
use vw_bits::{List, Text};

type Read<T> = Result<T, ReadError>;

fn list(alloc: Global, items: &[u64]) -> Result<List<u64>, Fail> {
    let mut list = List::new(alloc);
    for item in items {
        list.push(*item)?;
    }
    Ok(list)
}

fn bytes(alloc: Global, items: &[u8]) -> Result<List<u8>, Fail> {
    Ok(List::from_vec(items.to_vec(alloc)?))
}

fn shelf(alloc: Global, files: &[(&str, &str)], fail: &[u64]) -> Result<MemoryShelf, Fail> {
    let mut all = List::new(alloc);
    for (name, content) in files {
        let mut text = Text::new(alloc);
        text.push(name.as_bytes())?;
        all.push(ShelfFile {
            name: text,
            bytes: bytes(alloc, content.as_bytes())?,
        })?;
    }
    Ok(MemoryShelf::new(all, list(alloc, fail)?))
}

fn shown(read: &Read<List<u8>>) -> Read<&[u8]> {
    match read {
        Ok(bytes) => Ok(bytes.as_slice()),
        Err(error) => Err(*error),
    }
}

// Reading a whole file takes an open and a read for each piece, and a read at its end.
#[test]
fn reads(rt: HostRuntime) -> Result<(), Fail> {
    let alloc = rt.alloc();
    let files = [
        ("a", "hello"),
        ("a", "second"),
        ("empty", ""),
        ("", "unnamed"),
    ];
    let fault = Err(ReadError::Fault);
    let cases: [(&str, u8, u64, Read<&str>, Read<&str>); 16] = [
        ("a", 100, 0, Ok("hello"), Ok("")),
        ("a", 100, 1, fault, Ok("")),
        ("a", 100, 2, fault, Ok("")),
        ("a", 100, 3, fault, Ok("")),
        ("a", 100, 4, Ok("hello"), fault),
        ("a", 100, 5, Ok("hello"), fault),
        ("a", 100, 6, Ok("hello"), Ok("")),
        ("a", 5, 0, Ok("hello"), Ok("")),
        ("a", 4, 0, Err(ReadError::TooLong), Ok("")),
        ("a", 4, 3, Err(ReadError::TooLong), fault),
        ("a", 0, 0, Err(ReadError::TooLong), Ok("")),
        ("empty", 0, 0, Ok(""), Ok("")),
        ("empty", 0, 2, fault, Ok("")),
        ("", 7, 0, Ok("unnamed"), Ok("")),
        ("b", 7, 0, fault, Ok("")),
        ("A", 7, 0, fault, Ok("")),
    ];
    for (name, limit, fail, want, after) in cases {
        let mut shelf = shelf(alloc, &files, &[fail])?;
        let read = read_all(alloc, &mut shelf, name, u64::from(limit));
        let want = want.map(|text| text.as_bytes());
        assert_eq!(rt; shown(&read), want, "{name} {limit} {fail}");
        let again = read_all(alloc, &mut shelf, "empty", u64::from(limit));
        let after = after.map(|text| text.as_bytes());
        assert_eq!(rt; shown(&again), after, "{name} {limit} {fail}");
    }

    let mut never = NeverFails::new(bytes(alloc, b"text")?);
    let mut buf = [0u8; 3];
    assert_eq!(rt; never.read(&mut buf).ok(), Some(0));
    let read = read_all(alloc, &mut never, "any", 4);
    assert_eq!(rt; shown(&read), Ok(b"text".as_slice()));
    assert_eq!(rt;
        shown(&read_all(alloc, &mut never, "", 3)),
        Err(ReadError::TooLong)
    );
    Ok(())
}

// A sink that takes one byte of each piece, and fails once it holds `most` bytes.
#[derive(Drop)]
struct Narrow {
    taken: Vec<u8>,
    most: usize,
    faults: u64,
}

impl Sink for Narrow {
    ghost written = { λ s. Some s.taken.items };

    ghost faults = { λ s. s.faults };

    fn write(&mut self, piece: &[u8]) -> Result<usize, Failed> {
        let faults = self.faults;
        if piece.is_empty() {
            return Ok(0);
        }
        if self.taken.len() >= self.most || self.taken.push(piece[0]).is_err() {
            self.faults = one_more(faults);
            return Err(Failed);
        }
        Ok(1)
    }
}

// A write that fails leaves what the writes before it took.
#[test]
fn writes(rt: HostRuntime) -> Result<(), Fail> {
    let alloc = rt.alloc();
    let cases: [(u64, [Option<usize>; 3], &str); 4] = [
        (0, [Some(2), Some(0), Some(1)], "abc"),
        (1, [None, Some(0), Some(1)], "c"),
        (2, [Some(2), None, Some(1)], "abc"),
        (3, [Some(2), Some(0), None], "ab"),
    ];
    for (fail, answers, want) in cases {
        let mut sink = MemorySink::new(alloc, list(alloc, &[fail])?);
        let got = [
            sink.write(b"ab").ok(),
            sink.write(b"").ok(),
            sink.write(b"c").ok(),
        ];
        assert_eq!(rt; got, answers, "{fail}");
        assert_eq!(rt; sink.taken(), want.as_bytes(), "{fail}");
    }

    for (most, want, taken) in [
        (4, Ok(()), "text"),
        (3, Err(Failed), "tex"),
        (0, Err(Failed), ""),
    ] {
        let mut sink = Narrow {
            taken: Vec::new(alloc),
            most,
            faults: 0,
        };
        assert_eq!(rt; write_all_of(&mut sink, b"text"), want, "{most}");
        assert_eq!(rt; sink.taken.as_slice(), taken.as_bytes(), "{most}");
        assert_eq!(rt; sink.faults, want.map_or(1, |_| 0), "{most}");
    }
    let mut sink = MemorySink::new(alloc, list(alloc, &[])?);
    assert_eq!(rt; write_all_of(&mut sink, b"text"), Ok(()));
    assert_eq!(rt; sink.taken(), b"text".as_slice());
    Ok(())
}

// The files of Linux that every system has: one that is empty, and one that never ends.
#[test]
fn system(rt: HostRuntime) -> Result<(), Fail> {
    let alloc = rt.alloc();
    let mut shelf = FileShelf::new(&rt);
    let mut buf = [0u8; 3];
    assert_eq!(rt; shelf.read(&mut buf).ok(), None);
    let cases: [(&str, u32, Read<usize>); 5] = [
        ("/dev/null", 0, Ok(0)),
        ("/dev/zero", 65_535, Err(ReadError::TooLong)),
        ("/dev/zero", 200_000, Err(ReadError::TooLong)),
        ("/no/such/file", 9, Err(ReadError::Fault)),
        ("/dev/null", 9, Ok(0)),
    ];
    for (name, limit, want) in cases {
        let read = read_all(alloc, &mut shelf, name, u64::from(limit));
        assert_eq!(rt;
            shown(&read).map(|bytes| bytes.len()),
            want,
            "{name} {limit}"
        );
    }
    assert_eq!(rt; shelf.open(String::from_str(alloc, "-")?).is_ok(), true);

    let mut sink = StdSink::new(&rt);
    assert_eq!(rt; sink.write(b"").ok(), Some(0));
    assert_eq!(rt; write_all_of(&mut sink, b"written\n"), Ok(()));
    Ok(())
}
