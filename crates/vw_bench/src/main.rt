//! Decodes the bytes of standard input one after the other, and where they spell nothing goes on at the next
//! byte. It prints how many instructions there are, and how many of them are the same as the one before, so
//! that none is decoded for nothing. A word says how often all this is done: a clock beside it sees how long
//! the decoder takes alone. A word behind it, make, copy, join or compare, has this done with abstract states
//! in place of the decoding, a hundred thousand times a round; size tells how many bytes one takes.
#![tactic(auto)]

mod states;

use states::{Work, round, work_of};
use std::alloc::Global;
use std::env;
use std::io::{self, Read};
use vw_bits::OutOfMemory;
use vw_decode::decode;
use vw_insn::{Insn, same_insn};

#[derive(Clone, Copy)]
struct Counts {
    spelled: u64,
    repeated: u64,
    last: Insn,
}

fn main(rt: HostRuntime) -> io::Result<()> {
    let (rounds, work) = words(&rt)?;
    match work {
        Some(work) => match rounds_of(rt.alloc(), work, rounds) {
            Ok(found) => println!(rt; "{found}")?,
            Err(OutOfMemory) => println!(rt; "out of memory")?,
        },
        None => decode_input(&rt, rounds)?,
    }
    Ok(())
}

// Decodes standard input so many times.
fn decode_input(rt: &HostRuntime, rounds: u32) -> io::Result<()> {
    let mut bytes = Vec::new(rt.alloc());
    rt.reader().read_to_end(&mut bytes)?;
    let mut counts = Counts {
        spelled: 0,
        repeated: 0,
        last: Insn::Nop,
    };
    for _ in 0..rounds {
        counts = walk(bytes.as_slice(), counts);
    }
    println!(rt; "{} {}", counts.spelled, counts.repeated)?;
    Ok(())
}

// Does so many rounds of the work, and counts what it finds.
fn rounds_of(alloc: Global, work: Work, rounds: u32) -> Result<u64, OutOfMemory> {
    let mut found: u64 = 0;
    for _ in 0..rounds {
        found = found.wrapping_add(round(alloc, work)?);
    }
    Ok(found)
}

// The words behind the program's name: how often, once where it is no number, and what is done with states.
fn words(rt: &HostRuntime) -> io::Result<(u32, Option<Work>)> {
    let mut rounds = 1;
    let mut work = None;
    for word in env::args(rt)?.skip(1) {
        rounds = word.parse::<u32>().unwrap_or(rounds);
        work = work_of(word.as_str()).or(work);
    }
    Ok((rounds, work))
}

fn walk(bytes: &[u8], before: Counts) -> Counts {
    let mut counts = before;
    let mut rest = bytes;
    for _ in 0..bytes.len() {
        if rest.is_empty() {
            break;
        }
        match decode(rest) {
            None => rest = &rest[1..],
            Some((insn, length)) => {
                counts = counted(counts, insn);
                rest = &rest[length..];
            }
        }
    }
    counts
}

fn counted(counts: Counts, insn: Insn) -> Counts {
    let repeated = u64::from(same_insn(&insn, &counts.last));
    Counts {
        spelled: counts.spelled.wrapping_add(1),
        repeated: counts.repeated.wrapping_add(repeated),
        last: insn,
    }
}
