use std::alloc::Global;
use std::test::Fail;
use vw_dynamic::{DynError, Dynamic, RelKind, Relocation};
use vw_elf::{Elf, ElfError};

/// A file of 4,096 bytes: the dynamic section from 512 (address 0x1200), relocations from 768, symbols from
/// 1280, strings from 2048. A line is an offset, how many bytes stand there, and the number that they hold,
/// whose highest byte goes on past the eighth.
const FILE: &str = "
0 4 0x464c457f
4 1 2
5 1 1
16 2 3
18 2 62
32 8 64
54 2 56
56 2 3
# PT_LOAD with R and X: 512 bytes from 0 at address 0
64 4 1
68 4 5
96 8 512
104 8 512
# PT_LOAD with R and W: 3584 bytes from 512 at 0x1200, in memory 8192, up to 0x3200
120 4 1
124 4 6
128 8 512
136 8 0x1200
152 8 3584
160 8 8192
# PT_DYNAMIC: twelve entries
176 4 2
192 8 0x1200
208 8 192
# DT_STRTAB, DT_STRSZ, DT_SYMTAB
512 8 5
520 8 0x1800
528 8 10
536 8 64
544 8 6
552 8 0x1500
# DT_RELA, DT_RELASZ, DT_RELAENT
560 8 7
568 8 0x1300
576 8 8
584 8 96
592 8 9
600 8 24
# DT_JMPREL, DT_PLTRELSZ, DT_PLTREL
608 8 23
616 8 0x1360
624 8 2
632 8 24
640 8 20
648 8 7
# DT_SYMENT, DT_NULL, and behind it DT_INIT
656 8 11
664 8 24
688 8 12
# RELATIVE; 64 on symbol 1; GLOB_DAT on symbol 2; NONE; JUMP_SLOT on symbol 3
768 8 0x2100
776 8 8
784 8 0x123
792 8 0x2108
800 8 0x100000001
808 8 2
816 8 0x2110
824 8 0x200000006
832 8 99
840 8 0x2100
864 8 0x2118
872 8 0x300000007
# symbol 1 is defined, 2 and 3 are imports of one name
1308 1 0x12
1310 2 1
1312 8 0x40
1328 4 1
1332 1 0x12
1352 4 3
1356 1 0x12
# the strings a, a and b, at 1, 3 and 5
2049 1 0x61
2051 1 0x61
2053 1 0x62
1360 8 0
1336 8 0
";

/// Changes of the file, and the rule and offset that it then breaks, worked out by hand from the text of the
/// rules.
const CASES: &str = "
-> none
# no dynamic section
176 4 0 -> none
# 15: the second header
56 2 4, 232 4 2 -> 15 232
# 16: an empty section at the very end of the file part is not there
208 8 3585 -> 16 176
192 8 0x2000, 208 8 0 -> 16 176
# 17: whole entries alone
208 8 0 -> 17 176
208 8 160 -> 17 176
208 8 175 -> 17 176
208 8 176 -> none
208 8 191 -> none
# 18: entries behind DT_NULL are unread
656 8 12 -> 18 656
656 8 36 -> 18 656
656 8 27, 664 8 0 -> none
656 8 28, 664 8 8 -> 18 656
592 8 17, 656 8 13 -> 18 592
# 19: the second entry
656 8 5 -> 19 656
640 8 11 -> none
# 20: in the order of the entries
600 8 25 -> 20 592
648 8 17 -> 20 640
576 8 11 -> 20 560
560 8 30 -> 20 576
584 8 95 -> 20 576
584 8 95, 600 8 25 -> 20 576
624 8 30 -> 20 608
608 8 30 -> 20 624
592 8 30 -> none
# 21: the symbol table's entry
512 8 30 -> 21 544
536 8 2048 -> none
536 8 2049 -> 21 544
# 22: an empty table too
568 8 0x1fa1 -> 22 560
568 8 0x2000, 584 8 0 -> 22 560
584 8 0 -> none
616 8 0x1fe9 -> 22 608
# DT_JMPREL inside DT_RELA, and eight bytes into it
616 8 0x1318 -> none
616 8 0x1320 -> 23 800
# 23
776 8 2 -> 23 768
# 24: the last eight bytes of a segment, one byte further, and code
768 8 0x31f8 -> none
768 8 0x31f9 -> 24 768
768 8 0x100 -> 24 768
840 8 0 -> none
# 25: the later of the pair
792 8 0x2101 -> 25 792
792 8 0x2107 -> 25 792
792 8 0x20f9 -> 25 792
792 8 0x20f8 -> none
864 8 0x2100 -> 25 864
816 8 0x2104, 864 8 0x2100 -> 25 816
# 26: the symbol
800 8 1 -> 26 792
544 8 30 -> 26 792
800 8 0x7500000001 -> 26 792
1308 1 0x1a -> 26 792
1310 2 0xfff1 -> 26 792
1310 2 65279 -> none
1310 2 65280 -> 26 792
# 26: an addend on an import
824 8 0x200000001 -> 26 816
824 8 0x200000001, 832 8 0 -> none
# 26: a name that is empty, has no zero byte, or has 1,024 or 1,025 bytes
1328 4 0 -> 26 816
536 8 0 -> 26 816
536 8 2 -> 26 816
536 8 3 -> 26 864
536 8 2048, 2049 1024 0x6161616161616161 -> none
536 8 2048, 2049 1025 0x6161616161616161 -> 26 816
# the lowest rule, whatever breaks first in the file
776 8 2, 656 8 12 -> 18 656
800 8 1, 816 8 0x100 -> 24 816
";

fn number_in(word: Option<&str>) -> Option<u64> {
    let word = word?;
    match word.strip_prefix("0x") {
        Some(digits) => u64::from_str_radix(digits, 16).ok(),
        None => word.parse().ok(),
    }
}

fn put(bytes: &mut [u8], at: u64, size: u64, number: u64) {
    let digits = number.to_le_bytes();
    for index in 0..size {
        let place = at.wrapping_add(index) as usize;
        if place < bytes.len() {
            bytes[place] = digits[index.min(7) as usize];
        }
    }
}

/// Makes the change that the words say, and answers None where they say none.
fn change(bytes: &mut [u8], words: &str) -> Option<()> {
    let mut words = words.split_whitespace();
    let at = number_in(words.next())?;
    let size = number_in(words.next())?;
    let number = number_in(words.next())?;
    put(bytes, at, size, number);
    Some(())
}

/// Makes each change but comments, and answers whether all could be read.
fn all_made(bytes: &mut [u8], changes: &str, between: char) -> bool {
    for words in changes.trim().split(between) {
        if !words.is_empty() && !words.starts_with('#') && change(bytes, words).is_none() {
            return false;
        }
    }
    true
}

/// Both readers, one after the other: the dynamic section, or a rule and its offset.
fn read(alloc: Global, bytes: &[u8]) -> Result<Dynamic, Option<(u8, u64)>> {
    let elf = match Elf::read(alloc, bytes) {
        Ok(elf) => elf,
        Err(ElfError::Fault { rule, offset }) => return Err(Some((rule, offset))),
        Err(ElfError::Memory(_)) => return Err(None),
    };
    match Dynamic::read(
        alloc,
        bytes,
        elf.segments.as_slice(),
        elf.dynamics.as_slice(),
    ) {
        Ok(dynamic) => Ok(dynamic),
        Err(DynError::Fault { rule, offset }) => Err(Some((rule, offset))),
        Err(DynError::Memory(_)) => Err(None),
    }
}

/// What both readers say of the file with changes. An error without a rule: memory was refused, or a change
/// could not be read.
fn section(alloc: Global, changes: &str) -> Result<Dynamic, Option<(u8, u64)>> {
    let mut bytes = match vec![in alloc; 0u8; 4096] {
        Ok(bytes) => bytes,
        Err(_) => return Err(None),
    };
    if all_made(&mut bytes, FILE, '\n') && all_made(&mut bytes, changes, ',') {
        read(alloc, bytes.as_slice())
    } else {
        Err(None)
    }
}

fn broken_rule(alloc: Global, changes: &str) -> Option<(u8, u64)> {
    match section(alloc, changes) {
        Ok(_) => None,
        Err(Some(broken)) => Some(broken),
        Err(None) => Some((0, 0)),
    }
}

/// The rule and the offset that the words say.
fn rule_and_offset(words: &str) -> Option<(u8, u64)> {
    let (rule, offset) = words.split_once(' ')?;
    Some((rule.parse().ok()?, offset.parse().ok()?))
}

#[test]
fn names_the_first_broken_rule(rt: HostRuntime) {
    let mut cases = 0u32;
    for line in CASES.lines() {
        if let Some((changes, wanted)) = line.split_once("-> ") {
            let found = broken_rule(rt.alloc(), changes);
            assert_eq!(rt; found, rule_and_offset(wanted), "the file with {changes}");
            cases = cases.wrapping_add(1);
        }
    }
    assert_eq!(rt; cases, 63);
}

/// A relocation to what is added to the base address.
fn based(place: u64, added: u64, at: u64) -> Relocation {
    Relocation {
        place,
        kind: RelKind::Based(added),
        at,
    }
}

/// A relocation to an import.
fn bound(place: u64, import: u32, at: u64) -> Relocation {
    Relocation {
        place,
        kind: RelKind::Bound(import),
        at,
    }
}

#[test]
fn reads_the_dynamic_section(rt: HostRuntime) -> Result<(), Fail> {
    let dynamic = section(rt.alloc(), "")?;
    let relocations = [
        based(0x2100, 0x123, 768),
        based(0x2108, 0x42, 792),
        bound(0x2110, 0, 816),
        bound(0x2118, 0, 864),
    ];
    assert_eq!(rt; dynamic.relocations.as_slice(), relocations.as_slice());
    assert_eq!(rt; dynamic.imports.len(), 1);
    assert_eq!(rt; dynamic.imports.name(0), b"a".as_slice());
    Ok(())
}

#[test]
fn numbers_imports_by_their_first_relocation(rt: HostRuntime) -> Result<(), Fail> {
    let dynamic = section(rt.alloc(), "1352 4 5")?;
    assert_eq!(rt; dynamic.imports.len(), 2);
    assert_eq!(rt; dynamic.imports.name(1), b"b".as_slice());
    Ok(())
}
