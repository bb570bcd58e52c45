//! Decides whether the functions of a module stay inside their sandbox.
#![tactic(auto)]

mod check;
mod info;
mod laws;
mod limits;
mod lines;
mod listing;
mod program;
mod request;
mod round_trip;
mod selftest;
mod status;
mod verdict;

use program::run;
use std::env;
use std::process::ExitCode;
use vw_outside::{FileShelf, StdSink};

// The exit status where the system handed out no words.
const NO_WORDS: u8 = 9;

fn main(rt: HostRuntime) -> ExitCode {
    let Ok(words) = words(&rt) else {
        return ExitCode::from(NO_WORDS);
    };
    let mut shelf = FileShelf::new(&rt);
    let mut sink = StdSink::new(&rt);
    let status = run(rt.alloc(), words.as_slice(), &mut shelf, &mut sink);
    ExitCode::from(status.0)
}

// The words after the program's name.
fn words(rt: &HostRuntime) -> std::io::Result<Vec<String>> {
    let mut words = Vec::new(rt.alloc());
    for word in env::args(rt)?.skip(1) {
        words.push(word)?;
    }
    Ok(words)
}

#[cfg(test)]
mod tests;
