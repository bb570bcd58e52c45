//! Compares what the definitions say of single instructions with what a processor did with them. Each line of the input
//! is one instruction, its state before and its state after; lines that begin with # say how to read the others. Prints
//! each instruction on which they differ, with what differs first, and how many were compared. Those that access no
//! memory are made as a step of the machine too.
#![tactic(auto)]

mod comparison;
mod fields;
mod line;
mod stepping;

use comparison::{difference, stepped};
use line::read_line;
use std::io;

fn main(rt: HostRuntime) -> io::Result<()> {
    let mut count: u64 = 0;
    let mut same: u64 = 0;
    let mut steps: u64 = 0;
    let mut made: u64 = 0;
    for text in rt.lines(rt.alloc()) {
        let text = text?;
        if text.as_str().starts_with("#") {
            continue;
        }
        count = count.wrapping_add(1);
        match read_line(rt.alloc(), text.as_str())? {
            None => println!(rt; "cannot be read: {text}")?,
            Some(line) => {
                match difference(&line) {
                    None => same = same.wrapping_add(1),
                    Some(what) => println!(rt; "{what} differs: {text}")?,
                }
                match stepped(rt.alloc(), &line) {
                    None => {}
                    Some(None) => {
                        steps = steps.wrapping_add(1);
                        made = made.wrapping_add(1);
                    }
                    Some(Some(what)) => {
                        steps = steps.wrapping_add(1);
                        println!(rt; "{what} differs: {text}")?;
                    }
                }
            }
        }
    }
    println!(rt; "{count} instructions, of which {same} as a processor did them")?;
    println!(rt;
        "{steps} of them as a step of the machine, of which {made} as a processor did them"
    )
}
