//! Compares instructions with what a disassembler prints for their bytes: the text, and with the address, the size and
//! the direction of each access to memory. Each line of the input is one instruction; lines that begin with # say how to
//! read the others. Prints each instruction on which they differ, with what differs first, and how many were compared.
#![tactic(auto)]

mod comparison;
mod line;

use comparison::difference;
use line::read_line;
use std::alloc::AllocError;
use std::io;

fn main(rt: HostRuntime) -> io::Result<()> {
    let mut count: u64 = 0;
    let mut same: u64 = 0;
    for text in rt.lines(rt.alloc()) {
        let text = text?;
        if text.as_str().starts_with("#") {
            continue;
        }
        count = count.wrapping_add(1);
        match read_line(rt.alloc(), text.as_str())? {
            None => println!(rt; "cannot be read: {text}")?,
            Some(line) => match difference(rt.alloc(), &line).map_err(|_| AllocError)? {
                None => same = same.wrapping_add(1),
                Some(what) => println!(rt; "{what} differs: {text}")?,
            },
        }
    }
    println!(rt; "{count} instructions, of which {same} as a disassembler prints them")
}
