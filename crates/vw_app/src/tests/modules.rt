use super::fixtures::{
    SWITCH, SWITCH_ABOVE, USAGE, answer, expect, heap_read, module_of, one_file, patch,
};
use super::smallest::smallest_module;
use crate::selftest::selftest;
use crate::status::Status;
use std::test::Fail;
use vw_bits::List;
use vw_outside::NeverFails;

// What a module declares, and a file that is none.
#[test]
fn information(rt: HostRuntime) -> Result<(), Fail> {
    let alloc = rt.alloc();
    let file = heap_read(alloc)?;
    let mut shelf = one_file(alloc, "m", file.as_slice(), &[])?;
    let listed = "functions 1\n0x0000000000000078 7 f\ntables 0\nimports 0\n";
    expect(&rt, &["info", "m"], &mut shelf, &[], (0, listed))?;
    let mut other = file.as_slice().to_vec(alloc)?;
    patch(&mut other, 18, &[3]);
    let mut shelf = NeverFails::new(List::from_vec(other));
    let broken = (2, "malformed, rule 6 at 18\n");
    expect(&rt, &["info", "m"], &mut shelf, &[], broken)
}

// Functions by their code, with what is listed of them: the smallest read of the heap; a byte that begins no
// instruction; a jump over code that no jump comes to; the switch that is safe, and the one that is stopped before its
// cases.
const LISTINGS: [(&str, &str); 5] = [
    (
        "8b8700000000c3",
        "function f\n+0x0 8b8700000000 mov eax, [rdi+0x0]\n+0x6 c3 ret\n",
    ),
    ("f290c3", "function f\n+0x0 ?\n"),
    (
        "eb02ffe090",
        "function f\n+0x0 eb02 jmp +0x4\n+0x4 90 nop\n+0x5 ?\n",
    ),
    (
        SWITCH,
        "function f
+0x0 83fe03 cmp esi, 0x3
+0x3 7314 jae +0x19
+0x5 89f0 mov eax, esi
+0x7 488d0d0c000000 lea rcx, [rip+0xc]
+0xe 48630481 movsxd rax, [rcx+rax*4+0x0]
+0x12 4801c8 add rax, rcx
+0x15 ffe0 jmp rax
+0x17 c3 ret
+0x18 c3 ret
+0x19 c3 ret
",
    ),
    (
        SWITCH_ABOVE,
        "function f
+0x0 83fe03 cmp esi, 0x3
+0x3 7714 ja +0x19
+0x5 89f0 mov eax, esi
+0x7 488d0d0c000000 lea rcx, [rip+0xc]
+0xe 48630481 movsxd rax, [rcx+rax*4+0x0]
+0x12 4801c8 add rax, rcx
+0x15 ffe0 jmp rax
+0x19 c3 ret
",
    ),
];

#[test]
fn listings(rt: HostRuntime) -> Result<(), Fail> {
    let alloc = rt.alloc();
    for (hex, text) in LISTINGS.iter() {
        let file = module_of(&rt, hex)?;
        let mut shelf = one_file(alloc, "m", file.as_slice(), &[])?;
        expect(&rt, &["list", "m"], &mut shelf, &[], (0, *text))?;
    }
    let mut shelf = NeverFails::new(List::from_vec(smallest_module(alloc, &[])?));
    expect(&rt, &["list", "m"], &mut shelf, &[], (0, ""))
}

/// `mov esi, esi`, `mov eax, [rdi + rsi + 0xBDBF]`, `ret`.
const FIRST_GUEST: [u8; 10] = [0x89, 0xF6, 0x8B, 0x84, 0x37, 0xBF, 0xBD, 0, 0, 0xC3];

// A module of one function that is made from the number 0, and verdicts on it: as it is, with a dynamic entry whose tag
// no rule names and with one of an initialiser, and with a first segment that ends where the second begins and one byte
// behind it.
#[test]
fn modules_from_numbers(rt: HostRuntime) -> Result<(), Fail> {
    let alloc = rt.alloc();
    let mut lacking = one_file(alloc, "n", b"", &[])?;
    let (status, sink) = answer(alloc, &["make", "1", "0"], &mut lacking, &[])?;
    assert_eq!(rt; status, Status(0));
    let file = sink.taken();
    assert_eq!(rt; file.len(), 4568);
    assert!(rt;
        file.windows(10)
            .any(|window| window == FIRST_GUEST.as_slice())
    );
    let safe = (0, "safe, functions 1\n");
    let cases: [(usize, &[u8], (u8, &str)); 5] = [
        (0, &[], safe),
        (4192, &[30], safe),
        (4192, &[12], (2, "malformed, rule 18 at 4192\n")),
        (104, &[0, 16, 0], safe),
        (104, &[1, 16, 0], (2, "malformed, rule 11 at 120\n")),
    ];
    for (at, piece, answer) in cases {
        let mut bytes = file.to_vec(alloc)?;
        patch(&mut bytes, at, piece);
        let mut shelf = NeverFails::new(List::from_vec(bytes));
        expect(&rt, &["verify", "m"], &mut shelf, &[], answer)?;
    }
    expect(&rt, &["make", "1", "0"], &mut lacking, &[1], (5, ""))?;
    let last = answer(
        alloc,
        &["make", "1", "18446744073709551615"],
        &mut lacking,
        &[],
    )?;
    assert_eq!(rt; last.0, Status(0));
    assert_eq!(rt; last.1.taken().len(), 4568);
    Ok(())
}

// Numbers of functions outside 1 to 65,536, numbers from 2^64 on, and digits that are no number's.
#[test]
fn numbers_that_ask_for_no_module(rt: HostRuntime) -> Result<(), Fail> {
    let mut lacking = one_file(rt.alloc(), "n", b"", &[])?;
    for words in [
        ["make", "0", "0"].as_slice(),
        &["make", "65537", "0"],
        &["make", "01", "0"],
        &["make", "1", "00"],
        &["make", "+1", "0"],
        &["make", "1", "-0"],
        &["make", "1", ""],
        &["make", "1", "18446744073709551616"],
        &["make", "1"],
        &["make", "1", "0", "0"],
        &["verify", "1", "0"],
    ] {
        expect(&rt, words, &mut lacking, &[], (3, USAGE))?;
    }
    Ok(())
}

// Modules that are made from a number. Their functions have 3, 7, 10, 9, 6, 4, 13 and 6 instructions in turn, each of
// which is reached, so that each has a state.
#[test]
fn made_modules(rt: HostRuntime) -> Result<(), Fail> {
    for (functions, number, wanted) in [
        (
            1,
            0,
            "selftest, functions 1, instructions 3, safe, rechecked\n",
        ),
        (
            3,
            5,
            "selftest, functions 3, instructions 20, safe, rechecked\n",
        ),
        (
            8,
            1,
            "selftest, functions 8, instructions 58, safe, rechecked\n",
        ),
        (
            12,
            7,
            "selftest, functions 12, instructions 87, safe, rechecked\n",
        ),
    ] {
        assert!(rt; functions <= 65_536);
        let (status, text) = selftest(rt.alloc(), functions, number)?;
        assert_eq!(rt; status, Status::DONE);
        assert_eq!(rt; text.as_slice(), wanted.as_bytes());
    }
    Ok(())
}
