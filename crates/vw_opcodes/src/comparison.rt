//! Whether an instruction is what a disassembler prints.

ghost use Rattle.vw_insn.specs.Listed.{IsListed};

use crate::line::Line;
use std::alloc::Global;
use vw_bits::{OutOfMemory, Text};
use vw_decode::decode;
use vw_effect::{Access, Flags, Open, Reads, Write, effect, reads};
use vw_insn::{Insn, text};

// Where each instruction stands.
const AT: u64 = 0x1000_0000;

// General register number n holds 16^n, so that a sum of a base and a scaled index is that of no others.
static REGISTERS: [u64; 16] = [
    0x1,
    0x10,
    0x100,
    0x1000,
    0x1_0000,
    0x10_0000,
    0x100_0000,
    0x1000_0000,
    0x1_0000_0000,
    0x10_0000_0000,
    0x100_0000_0000,
    0x1000_0000_0000,
    0x1_0000_0000_0000,
    0x10_0000_0000_0000,
    0x100_0000_0000_0000,
    0x1000_0000_0000_0000,
];

const CLEAR: Flags = Flags {
    carry: false,
    parity: false,
    is_zero: false,
    sign: false,
    overflow: false,
};

fn reads_same(found: Reads, read: Option<Access>) -> bool {
    match found {
        Reads::Nothing => read.is_none(),
        Reads::One(access) => read == Some(access),
        Reads::Two(..) => false,
    }
}

fn place(write: Write) -> Access {
    Access {
        at: write.at,
        size: write.size,
    }
}

// What an instruction writes when each number that it loads or that is open is 0.
fn written(insn: &Insn, next: u64) -> Option<Access>
    requires { IsListed insn.now }
{
    let choice = Open {
        numbers: [0, 0],
        flags: CLEAR,
    };
    effect(insn, next, &REGISTERS, CLEAR, 0, &choice)
        .write
        .map(place)
}

fn difference_of_accesses(insn: &Insn, next: u64, line: &Line) -> Option<&'static str>
    requires { IsListed insn.now }
{
    if !reads_same(reads(insn, next, &REGISTERS), line.read) {
        return Some("read");
    }
    if written(insn, next) != line.write {
        return Some("write");
    }
    None
}

/// What differs first between the instruction that the bytes of a line spell and what the line says of it.
pub fn difference(alloc: Global, line: &Line) -> Result<Option<&'static str>, OutOfMemory> {
    let Some((insn, size)) = decode(line.code.as_slice()) else {
        return Ok(Some("instruction"));
    };
    if size != line.code.len() {
        return Ok(Some("length"));
    }
    let mut found = Text::new(alloc);
    text(alloc, &insn, size as u32, &mut found)?;
    if found.as_slice() != line.printed.as_bytes() {
        return Ok(Some("text"));
    }
    Ok(difference_of_accesses(&insn, AT.wrapping_add(size as u64), line))
}
