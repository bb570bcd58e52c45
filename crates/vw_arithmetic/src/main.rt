//! Compares what the analysis computes with values with what was worked out by hand from what they stand for. Each line
//! of the input is one operation; lines that begin with # say how to read the others. Prints each operation of which the
//! result differs, and how many were compared.
#![tactic(auto)]

mod comparison;
mod words;

use comparison::{Setting, is_as_expected};
use std::alloc::AllocError;
use std::io;

fn main(rt: HostRuntime) -> io::Result<()> {
    let setting = Setting::new(rt.alloc()).map_err(|_| AllocError)?;
    let mut count: u64 = 0;
    let mut same: u64 = 0;
    for text in rt.lines(rt.alloc()) {
        let text = text?;
        if text.as_str().starts_with("#") {
            continue;
        }
        count = count.wrapping_add(1);
        match is_as_expected(rt.alloc(), &setting, text.as_str()).map_err(|_| AllocError)? {
            None => println!(rt; "cannot be read: {text}")?,
            Some(false) => println!(rt; "differs: {text}")?,
            Some(true) => same = same.wrapping_add(1),
        }
    }
    println!(rt; "{count} operations, of which {same} as worked out by hand")
}
