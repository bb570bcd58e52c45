use super::fixtures::{expect, module_of, one_file, two_files};
use super::smallest::smallest_module;
use std::alloc::Global;
use std::test::Fail;
use vw_bits::{List, Text};
use vw_outside::NeverFails;

/// The report of an endless jump: one point, at which all is known that is known at the entry.
const ENDLESS: &str = "veriwasm report 1
function 0000000000000078
at 00000000 p0 orsp=+0 vrax=num vrcx=num vrdx=num vrbx=entry:rbx vrbp=entry:rbp vrsi=num vrdi=heapbase vr8=num vr9=num vr10=num vr11=num vr12=entry:r12 vr13=entry:r13 vr14=entry:r14 vr15=entry:r15
end
";

/// Its one line of a point.
const ENDLESS_POINT: &str =
    "at 00000000 p0 orsp=+0 vrax=num vrcx=num vrdx=num vrbx=entry:rbx vrbp=entry:rbp vrsi=num vrdi=heapbase vr8=num vr9=num vr10=num vr11=num vr12=entry:r12 vr13=entry:r13 vr14=entry:r14 vr15=entry:r15\n";

// An endless jump, a function that is not safe, a module without functions, and a file that is none.
#[test]
fn reports(rt: HostRuntime) -> Result<(), Fail> {
    let alloc = rt.alloc();
    for (code, status, text) in [
        ([0xEB, 0xFE].as_slice(), 0, ENDLESS),
        (&[0x90], 1, "unsafe, f+0x1, C1 code\n"),
        (&[], 0, "veriwasm report 1\nend\n"),
    ] {
        assert!(rt; code.len() <= 100);
        let file = smallest_module(alloc, code)?;
        let mut shelf = one_file(alloc, "m", file.as_slice(), &[])?;
        expect(&rt, &["report", "m"], &mut shelf, &[], (status, text))?;
    }
    let mut lacking = one_file(alloc, "n", b"", &[])?;
    expect(
        &rt,
        &["report", "m"],
        &mut lacking,
        &[],
        (4, "read fault\n"),
    )?;
    let mut empty = NeverFails::new(List::new(alloc));
    let broken = (2, "malformed, rule 2 at 0\n");
    expect(&rt, &["report", "m"], &mut empty, &[], broken)?;
    expect(&rt, &["report", "m"], &mut empty, &[1], (5, ""))
}

// Pieces of the report of an endless jump, with what stands for each, and the answer of `check`: as it is; a greater
// state, which is safe too; no entry state; a space too many; no last line, a part of it, and a line behind it; another
// first line; and a function that is not declared, below the one that is.
const CHECKS: [(&str, &str, u8, &str); 9] = [
    ("", "", 0, "safe, functions 1\n"),
    (" vrdi=heapbase", "", 0, "safe, functions 1\n"),
    (ENDLESS_POINT, "", 1, "unsafe, f+0x0, C0 table\n"),
    ("at 0", "at  0", 7, "bad report, line 3\n"),
    ("end\n", "", 7, "bad report, line 4\n"),
    ("end\n", "en", 7, "bad report, line 4\n"),
    ("end\n", "end\n\n", 7, "bad report, line 5\n"),
    ("report 1", "report 2", 7, "bad report, line 1\n"),
    ("78", "77", 1, "unsafe, ?+0x0, C0 table\n"),
];

// Other functions by their code, with what `check` answers to that report: one that returns; one whose edge leads to a
// point without a state, where a check fails too, and without; a jump out of the function; and no instruction.
const OTHERS: [(&str, u8, &str); 5] = [
    ("c3", 0, "safe, functions 1\n"),
    ("8b87f8ffffffebf8", 1, "unsafe, f+0x0, C0 table\n"),
    ("90c3", 1, "unsafe, f+0x0, C0 table\n"),
    ("eb7f", 1, "unsafe, f+0x0, C2 jump\n"),
    ("f290c3", 1, "unsafe, f+0x0, C1 code\n"),
];

// A text in which a piece is another.
fn replaced(alloc: Global, text: &str, old: &str, new: &str) -> Result<Text, Fail> {
    let mut result = Text::new(alloc);
    if let Some((front, back)) = text.split_once(old) {
        result.push(front.as_bytes())?;
        result.push(new.as_bytes())?;
        result.push(back.as_bytes())?;
    }
    Ok(result)
}

#[test]
fn checks_of_reports(rt: HostRuntime) -> Result<(), Fail> {
    let alloc = rt.alloc();
    let words = ["check", "m", "r"].as_slice();
    let endless = smallest_module(alloc, &[0xEB, 0xFE])?;
    for (old, new, status, text) in CHECKS.iter() {
        let report = replaced(alloc, ENDLESS, old, new)?;
        let mut shelf = two_files(alloc, endless.as_slice(), report.as_slice(), &[])?;
        expect(&rt, words, &mut shelf, &[], (*status, *text))?;
    }
    for (hex, status, text) in OTHERS.iter() {
        let file = module_of(&rt, hex)?;
        let mut shelf = two_files(alloc, file.as_slice(), ENDLESS.as_bytes(), &[])?;
        expect(&rt, words, &mut shelf, &[], (*status, *text))?;
    }
    let none = smallest_module(alloc, &[])?;
    let mut shelf = two_files(alloc, none.as_slice(), b"veriwasm report 1\nend\n", &[])?;
    expect(&rt, words, &mut shelf, &[], (0, "safe, functions 0\n"))
}

// The order of answers: the read of the file, its rules, the read of the report, its grammar, and the write. A file and
// a report are read by three calls each: an open, a piece, and the read that finds the end.
#[test]
fn order_of_a_check(rt: HostRuntime) -> Result<(), Fail> {
    let alloc = rt.alloc();
    let endless = smallest_module(alloc, &[0xEB, 0xFE])?;
    let endless = endless.as_slice();
    let report = ENDLESS.as_bytes();
    let fault = (4, "read fault\n");
    let broken = (2, "malformed, rule 2 at 0\n");
    let bad = (7, "bad report, line 1\n");
    let safe = (0, "safe, functions 1\n");
    let check = ["check", "m", "r"];
    let cases: [([&str; 3], &[u8], &[u8], &[u64], &[u64], (u8, &str)); 13] = [
        (check, b"", b"", &[1], &[], fault),
        (check, b"", b"", &[], &[], broken),
        // a file of no bytes is read by two calls, and no call reads the report behind it
        (check, b"", b"", &[3], &[], broken),
        (["check", "m", "n"], b"", b"", &[], &[], broken),
        (["check", "n", "r"], endless, report, &[], &[], fault),
        (["check", "m", "n"], endless, report, &[], &[], fault),
        (check, endless, report, &[3], &[], fault),
        (check, endless, report, &[4], &[], fault),
        (check, endless, report, &[6], &[], fault),
        (check, endless, report, &[7], &[2], safe),
        (check, endless, b"", &[], &[], bad),
        (["check", "m", "m"], endless, report, &[], &[], bad),
        (check, endless, report, &[], &[1], (5, "")),
    ];
    for (words, file, report, reads, writes, answer) in cases {
        let mut shelf = two_files(alloc, file, report, reads)?;
        expect(&rt, words.as_slice(), &mut shelf, writes, answer)?;
    }
    Ok(())
}
