use super::fixtures::{SWITCH, SWITCH_ABOVE, expect, heap_read, module_of, one_file};
use super::smallest::smallest_module;
use std::process::Abort;
use std::test::Fail;
use vw_bits::List;
use vw_outside::NeverFails;

/// Functions by their code: safe ones, and checks that fail.
pub const VERDICTS: [(&str, u8, &str); 28] = [
    ("8b8700000000c3", 0, "safe, functions 1\n"),
    ("8b87f8ffffffc3", 1, "unsafe, f+0x0, C4 address\n"),
    ("8b87f8ffffff90", 1, "unsafe, f+0x7, C1 code\n"),
    ("8987ffffff7f0f0b", 0, "safe, functions 1\n"),
    ("4090c3", 0, "safe, functions 1\n"),
    ("90", 1, "unsafe, f+0x1, C1 code\n"),
    ("0f0b", 0, "safe, functions 1\n"),
    (
        "90908987000000808b87ffffffffc3",
        1,
        "unsafe, f+0x2, C4 address\n",
    ),
    ("f290c3", 1, "unsafe, f+0x0, C1 code\n"),
    ("8b07c3", 0, "safe, functions 1\n"),
    ("908b", 1, "unsafe, f+0x1, C1 code\n"),
    ("8b47f8c3", 1, "unsafe, f+0x0, C4 address\n"),
    ("8b0fc3", 0, "safe, functions 1\n"),
    // a branch to itself, endless jumps
    ("74fec3", 0, "safe, functions 1\n"),
    ("ebfe", 0, "safe, functions 1\n"),
    ("90ebfe", 0, "safe, functions 1\n"),
    ("e900000000c3", 0, "safe, functions 1\n"),
    // out of the function: behind its last byte, far behind, and before its first
    ("7401c3", 1, "unsafe, f+0x0, C2 jump\n"),
    ("7502c3", 1, "unsafe, f+0x0, C2 jump\n"),
    ("eb7f", 1, "unsafe, f+0x0, C2 jump\n"),
    ("0f84f8ffffffc3", 1, "unsafe, f+0x0, C2 jump\n"),
    // into the end of the code by falling through a branch
    ("74fe90", 1, "unsafe, f+0x3, C1 code\n"),
    // the jump goes to the entry
    ("7401908b47f8ebf8", 1, "unsafe, f+0x3, C4 address\n"),
    ("7401908b4708ebf8", 0, "safe, functions 1\n"),
    // a jump out of the function goes before an access at a lower point
    ("8b47f8eb7f", 1, "unsafe, f+0x3, C2 jump\n"),
    // a jump through a register that no jump comes to, and one behind a branch that fails a check
    ("eb02ffe0c3", 0, "safe, functions 1\n"),
    ("757fffe0", 1, "unsafe, f+0x0, C2 jump\n"),
    ("757f90c3", 1, "unsafe, f+0x0, C2 jump\n"),
];

/// Functions that use their frame, compute addresses and call themselves.
pub const FRAMES: [(&str, u8, &str); 28] = [
    // rbp is pushed and popped, pushed alone, and rsp is not where it was
    ("554889e55dc3", 0, "safe, functions 1\n"),
    ("55c3", 1, "unsafe, f+0x1, C8 return\n"),
    ("4883c408c3", 1, "unsafe, f+0x4, C8 return\n"),
    // rbx is written, with and without the value that it had
    ("5331db5bc3", 0, "safe, functions 1\n"),
    ("31dbc3", 1, "unsafe, f+0x2, C8 return\n"),
    // LEAVE finds the frame by rbp
    ("554889e54883ec20c9c3", 0, "safe, functions 1\n"),
    // reads of the frame: not written, written, behind the return address, and of it
    ("8b4424fcc3", 1, "unsafe, f+0x0, C6 local\n"),
    ("894424fc8b4424fcc3", 0, "safe, functions 1\n"),
    ("8b442408c3", 0, "safe, functions 1\n"),
    ("8b442404c3", 1, "unsafe, f+0x0, C6 local\n"),
    ("8b842404100000c3", 0, "safe, functions 1\n"),
    ("8b842405100000c3", 1, "unsafe, f+0x0, C6 local\n"),
    // writes of the frame: behind its end, and below the guard
    ("89442408c3", 1, "unsafe, f+0x0, C5 read only\n"),
    ("89842400e0ffffc3", 0, "safe, functions 1\n"),
    ("898424ffdfffffc3", 1, "unsafe, f+0x0, C3 depth\n"),
    // written on one branch alone
    ("7404894424fc8b4424fcc3", 1, "unsafe, f+0x6, C6 local\n"),
    // an index of any number, of 32 bits, and a spilled one
    ("8b0437c3", 1, "unsafe, f+0x0, C4 address\n"),
    ("89f68b0437c3", 0, "safe, functions 1\n"),
    ("897424fc8b5424fc8b0417c3", 0, "safe, functions 1\n"),
    // the heap's base from a spilled word, and eight bytes below it
    ("48897c24f8488b5424f88b02c3", 0, "safe, functions 1\n"),
    ("488b57f88b02c3", 0, "safe, functions 1\n"),
    ("488b57f88b82fd0f0000c3", 1, "unsafe, f+0x4, C4 address\n"),
    // a comparison of rdi, which holds the heap's base on both branches
    ("4881ff0010000072008b07c3", 0, "safe, functions 1\n"),
    // calls: of the function itself, once more without the heap's base, with it kept, and of no function
    ("e8fbffffffc3", 0, "safe, functions 1\n"),
    ("e8fbffffffe8f6ffffffc3", 1, "unsafe, f+0x5, C7 call\n"),
    ("57e8faffffff5fe8f4ffffffc3", 0, "safe, functions 1\n"),
    ("e800000000c3", 1, "unsafe, f+0x0, C7 call\n"),
    ("ffd0c3", 1, "unsafe, f+0x0, C7 call\n"),
];

/// Functions at the limits of what is permitted, and behind them.
pub const LIMITS: [(&str, u8, &str); 19] = [
    // an index of any number, the largest displacement, and the last two bytes of the heap's reservation and four there
    ("8b040fc3", 1, "unsafe, f+0x0, C4 address\n"),
    ("89c98b840fffffff7fc3", 0, "safe, functions 1\n"),
    ("89c90fb7044fc3", 0, "safe, functions 1\n"),
    ("89c98b044fc3", 1, "unsafe, f+0x2, C4 address\n"),
    // the last eight bytes of the globals, and one byte behind
    ("488b47f8488b80f80f0000c3", 0, "safe, functions 1\n"),
    ("488b47f8488b80f90f0000c3", 1, "unsafe, f+0x4, C4 address\n"),
    // a write over the return address, and a read of eight bytes that were not written
    ("48894424fcc3", 1, "unsafe, f+0x0, C5 read only\n"),
    ("488b4424f8c3", 1, "unsafe, f+0x0, C6 local\n"),
    // a loop with a copy of an earlier turn, where another number is compared, and a copy of the compared number
    (
        "31c9488b07483d0010000073038b140f4889c1ebed",
        1,
        "unsafe, f+0xd, C4 address\n",
    ),
    (
        "488b074889c1483d0010000073038b140fc3",
        0,
        "safe, functions 1\n",
    ),
    // a jump into its own last byte
    ("ebffc0c3", 0, "safe, functions 1\n"),
    // the last bytes of the caller, and one behind; the lowest bytes of the guard, and eight below
    ("488b842400100000c3", 0, "safe, functions 1\n"),
    ("488b842401100000c3", 1, "unsafe, f+0x0, C6 local\n"),
    ("4889842400e0ffffc3", 0, "safe, functions 1\n"),
    ("48898424f8dfffffc3", 1, "unsafe, f+0x0, C3 depth\n"),
    // a write of the low byte behind the bound, and a spilled word below rsp over a call
    ("89c9b1ff8b040fc3", 1, "unsafe, f+0x4, C4 address\n"),
    (
        "48897c24f0e8f6ffffff488b7c24f08b07c3",
        1,
        "unsafe, f+0xf, C4 address\n",
    ),
    // sixteen bytes of an XMM register below the return address, and eight of them over it
    ("0f57c00f114424f0c3", 0, "safe, functions 1\n"),
    ("0f57c00f114424f8c3", 1, "unsafe, f+0x3, C5 read only\n"),
];

/// Switches: with the bound that the table needs and with one entry more; a jump of which no table is known; and a table
/// of one entry to itself, in a loop.
pub const SWITCHES: [(&str, u8, &str); 4] = [
    (SWITCH, 0, "safe, functions 1\n"),
    (SWITCH_ABOVE, 1, "unsafe, f+0x15, C2 jump\n"),
    ("488d0500000000ffe0c3", 1, "unsafe, f+0x7, C2 jump\n"),
    (
        "83fe01731489f0488d0d0c00000048630481\
         4801c8ffe0c3c3c3e6ffffff",
        0,
        "safe, functions 1\n",
    ),
];

#[test]
fn verdicts_on_switches(rt: HostRuntime) -> Result<(), Fail> {
    judge_each(&rt, &SWITCHES)
}

#[test]
fn verdicts(rt: HostRuntime) -> Result<(), Fail> {
    judge_each(&rt, &VERDICTS)
}

#[test]
fn verdicts_on_frames(rt: HostRuntime) -> Result<(), Fail> {
    judge_each(&rt, &FRAMES)
}

#[test]
fn verdicts_at_limits(rt: HostRuntime) -> Result<(), Fail> {
    judge_each(&rt, &LIMITS)
}

// Judges functions by their code.
fn judge_each(rt: &(impl Abort + AllocGlobal), cases: &[(&str, u8, &str)]) -> Result<(), Fail> {
    for (hex, status, text) in cases.iter() {
        let file = module_of(rt, hex)?;
        let mut shelf = one_file(rt.alloc(), "-", file.as_slice(), &[])?;
        expect(rt, &["verify", "-"], &mut shelf, &[], (*status, text))?;
    }
    Ok(())
}

// 64 KiB of NOP up to a RET, and 32,000 jumps each to the next.
#[test]
fn long_functions(rt: HostRuntime) -> Result<(), Fail> {
    let alloc = rt.alloc();
    for (piece, times) in [([0x90].as_slice(), 65_535), (&[0xEB, 0x00], 32_000)] {
        let mut code = Vec::new(alloc);
        for _ in 0..times {
            code.extend_from_slice(piece)?;
        }
        code.push(0xC3)?;
        assert!(rt; code.len() <= 1_048_576);
        let file = smallest_module(alloc, code.as_slice())?;
        let mut shelf = NeverFails::new(List::from_vec(file));
        let safe = (0, "safe, functions 1\n");
        expect(&rt, &["verify", "m"], &mut shelf, &[], safe)?;
    }
    Ok(())
}

// No bytes, a file that is cut short, one of another machine, a module without functions, one with a byte
// behind it, and one longer than any module.
#[test]
fn files(rt: HostRuntime) -> Result<(), Fail> {
    let alloc = rt.alloc();
    let file = heap_read(alloc)?;
    let file = file.as_slice();
    let empty = smallest_module(alloc, &[])?;
    let mut longer = file.to_vec(alloc)?;
    longer.push(0)?;
    let longest = vec![in alloc; 0u8; 67_108_865]?;
    let short = &file[..file.len().min(375)];
    for (bytes, status, text) in [
        (b"".as_slice(), 2, "malformed, rule 2 at 0\n"),
        (short, 2, "malformed, rule 13 at 40\n"),
        (empty.as_slice(), 0, "safe, functions 0\n"),
        (longer.as_slice(), 0, "safe, functions 1\n"),
        (longest.as_slice(), 2, "malformed, rule 1 at 67108864\n"),
    ] {
        let mut shelf = NeverFails::new(List::from_vec(bytes.to_vec(alloc)?));
        expect(&rt, &["verify", "m"], &mut shelf, &[], (status, text))?;
    }
    Ok(())
}
