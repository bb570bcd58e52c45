use crate::tests::fault;
use std::alloc::Global;
use std::test::Fail;
use vw_bits::{OutOfMemory, Text};

/// The report of an endless loop at 0x78: what is known at a function's entry.
const REPORT: &[u8] =
    b"veriwasm report 1\nfunction 0000000000000078\nat 00000000 p0 orsp=+0 vrax=num vrcx=num vrdx=num vrbx=entry:rbx vrbp=entry:rbp vrsi=num vrdi=heapbase vr8=num vr9=num vr10=num vr11=num vr12=entry:r12 vr13=entry:r13 vr14=entry:r14 vr15=entry:r15\nend\n";

/// What is done at a byte of it.
#[derive(Clone, Copy)]
enum Change {
    /// The byte becomes another.
    Replace(u8),
    /// Another stands before it.
    Insert(u8),
    /// It is left out.
    Delete,
    /// The text ends before it.
    Cut,
}

/// Changes after which no report has the text, wherever they are made: no report has a question mark, a capital letter or
/// two spaces.
const CHANGES: [Change; 6] = [
    Change::Replace(b'?'),
    Change::Replace(b'A'),
    Change::Insert(b'?'),
    Change::Insert(b' '),
    Change::Delete,
    Change::Cut,
];

// The text once a byte is changed.
fn changed(alloc: Global, at: usize, change: Change) -> Result<Text, OutOfMemory> {
    let (front, back) = REPORT.split_at(at.min(REPORT.len()));
    let mut text = Text::new(alloc);
    text.push(front)?;
    match change {
        Change::Replace(byte) => {
            text.push(&[byte])?;
            text.push(behind(back))?;
        }
        Change::Insert(byte) => {
            text.push(&[byte])?;
            text.push(back)?;
        }
        Change::Delete => text.push(behind(back))?,
        Change::Cut => {}
    }
    Ok(text)
}

// The bytes behind the first.
fn behind(bytes: &[u8]) -> &[u8] {
    match bytes {
        [_, rest @ ..] => rest,
        [] => bytes,
    }
}

// The line of a byte, counted from 1.
fn line_of(at: usize) -> u64 {
    let (front, _) = REPORT.split_at(at.min(REPORT.len()));
    (front.iter().filter(|b| **b == b'\n').count() as u64).saturating_add(1)
}

// Whether each change at a byte is answered with the byte's line.
fn names_its_line(alloc: Global, at: usize) -> Result<bool, OutOfMemory> {
    for change in CHANGES.iter() {
        let text = changed(alloc, at, *change)?;
        if fault(alloc, text.as_slice())? != line_of(at) {
            return Ok(false);
        }
    }
    Ok(true)
}

// The report as it is is read, and a change of any byte is answered with the line that the byte stands in.
#[test]
fn a_changed_byte_is_answered_with_its_line(rt: HostRuntime) -> Result<(), Fail> {
    let alloc = rt.alloc();
    assert_eq!(rt; fault(alloc, REPORT)?, 0);
    for at in 0..REPORT.len() {
        assert!(rt; names_its_line(alloc, at)?, "byte {at}");
    }
    Ok(())
}
