use crate::{Elf, ElfError, SymbolSection};
use bitflags::Flags;
use std::alloc::{AllocError, Global};
use std::test::Fail;
use vw_bits::{DynHeader, Rights, Segment};

/// A number of so many bytes at an offset: (offset, bytes, number).
type Patch = (usize, usize, u64);

/// A file of a length with patches, and the rule and offset that it breaks.
type Case = (usize, &'static [Patch], Option<(u8, u64)>);

/// Three program headers from 64, three section headers from 256, two symbols from 512 and a string
/// table of 16 bytes from 560, in a file of 768 bytes.
const FILE: [Patch; 37] = [
    (0, 4, 0x464c_457f),
    (4, 1, 2),
    (5, 1, 1),
    (16, 2, 3),
    (18, 2, 62),
    (32, 8, 64),
    (40, 8, 256),
    (54, 2, 56),
    (56, 2, 3),
    (58, 2, 64),
    (60, 2, 3),
    // PT_LOAD with R and X: 512 bytes from 0 at address 0
    (64, 4, 1),
    (68, 4, 5),
    (96, 8, 512),
    (104, 8, 512),
    // PT_LOAD with R and W: 256 bytes from 512 at 0x1200, in memory 8192
    (120, 4, 1),
    (124, 4, 6),
    (128, 8, 512),
    (136, 8, 0x1200),
    (152, 8, 256),
    (160, 8, 8192),
    // PT_DYNAMIC: 32 bytes at 0x1280
    (176, 4, 2),
    (180, 4, 6),
    (184, 8, 640),
    (192, 8, 0x1280),
    (208, 8, 32),
    (216, 8, 32),
    // SHT_DYNSYM whose strings are section 2
    (324, 4, 11),
    (344, 8, 512),
    (352, 8, 48),
    (360, 4, 2),
    (376, 8, 24),
    // SHT_STRTAB
    (388, 4, 3),
    (408, 8, 560),
    (416, 8, 16),
    (424, 4, 0),
    (440, 8, 0),
];

const LEN: usize = 768;

/// Each expected rule and offset is worked out by hand from the text of the rules.
const CASES: [Case; 50] = [
    (LEN, &[], None),
    // 2: the length
    (0, &[], Some((2, 0))),
    (63, &[], Some((2, 63))),
    // 3 and 4: e_ident, at the first byte that differs
    (LEN, &[(0, 1, 0), (3, 1, 0)], Some((3, 0))),
    (LEN, &[(2, 2, 0)], Some((3, 2))),
    (LEN, &[(4, 1, 1), (5, 1, 2)], Some((4, 4))),
    (LEN, &[(5, 1, 2)], Some((4, 5))),
    // 5 to 7
    (LEN, &[(16, 2, 2)], Some((5, 16))),
    (LEN, &[(18, 2, 3)], Some((6, 18))),
    (LEN, &[(54, 2, 55)], Some((7, 54))),
    // 8 and 9: 1 to 64 program headers, which end at the file's end at the latest
    (LEN, &[(56, 2, 0)], Some((8, 56))),
    (LEN, &[(56, 2, 65)], Some((8, 56))),
    (4608, &[(32, 8, 1024), (56, 2, 64)], Some((11, 32))),
    (4607, &[(32, 8, 1024), (56, 2, 64)], Some((9, 32))),
    (64, &[], Some((9, 32))),
    (LEN, &[(32, 8, 0xffff_ffff_ffff_ff58)], Some((9, 32))),
    // 10: the first header that breaks it
    (LEN, &[(160, 8, 255)], Some((10, 120))),
    (LEN, &[(152, 8, 257)], Some((10, 120))),
    (LEN, &[(160, 8, 0x7fff_ee00)], None),
    (LEN, &[(160, 8, 0x7fff_ee01)], Some((10, 120))),
    (LEN, &[(136, 8, 0x1201)], Some((10, 120))),
    (
        LEN,
        &[(128, 8, 0xffff_ffff_ffff_ff00), (136, 8, 0x1f00)],
        Some((10, 120)),
    ),
    (LEN, &[(104, 8, 511), (160, 8, 255)], Some((10, 64))),
    // 11: ascending, and no page twice
    (LEN, &[(64, 4, 0), (120, 4, 0)], Some((11, 32))),
    (LEN, &[(104, 8, 4096)], None),
    (LEN, &[(104, 8, 4097)], Some((11, 120))),
    (LEN, &[(136, 8, 0x200)], Some((11, 120))),
    (LEN, &[(96, 8, 0), (104, 8, 0)], None),
    (
        LEN,
        &[(96, 8, 0), (104, 8, 0), (136, 8, 0x200)],
        Some((11, 120)),
    ),
    (LEN, &[(80, 8, 0x10000)], Some((11, 120))),
    (
        LEN,
        &[(80, 8, 0x1000), (128, 8, 0), (136, 8, 0x1000)],
        Some((11, 120)),
    ),
    // 12: W and X
    (LEN, &[(124, 4, 7)], Some((12, 120))),
    (LEN, &[(68, 4, 3), (124, 4, 3)], Some((12, 64))),
    // 13: the section headers, if there are any
    (
        LEN,
        &[(60, 2, 0), (58, 2, 63), (40, 8, 0xffff_ffff_ffff_ffff)],
        None,
    ),
    (LEN, &[(58, 2, 63), (40, 8, 700)], Some((13, 58))),
    (LEN, &[(40, 8, 577)], Some((13, 40))),
    // 14: the first section of symbols that breaks it
    (LEN, &[(376, 8, 23)], Some((14, 320))),
    (LEN, &[(352, 8, 47)], Some((14, 320))),
    (LEN, &[(352, 8, 240)], None),
    (LEN, &[(352, 8, 264)], Some((14, 320))),
    (LEN, &[(344, 8, 768), (352, 8, 0)], None),
    (LEN, &[(344, 8, 769), (352, 8, 0)], Some((14, 320))),
    (LEN, &[(360, 4, 3)], Some((14, 320))),
    (LEN, &[(360, 4, 0)], Some((14, 320))),
    (LEN, &[(416, 8, 208)], None),
    (LEN, &[(416, 8, 209)], Some((14, 320))),
    (LEN, &[(260, 4, 2), (376, 8, 23)], Some((14, 256))),
    // the lowest rule, whatever breaks first in the file
    (LEN, &[(16, 2, 2), (68, 4, 7)], Some((5, 16))),
    (LEN, &[(68, 4, 7), (136, 8, 0x200)], Some((11, 120))),
    (
        LEN,
        &[(68, 4, 7), (136, 8, 0x200), (160, 8, 255)],
        Some((10, 120)),
    ),
];

fn zeros(alloc: Global, len: usize) -> Result<Vec<u8>, AllocError> {
    vec![in alloc; 0u8; len]
}

fn patch(bytes: &mut Vec<u8>, patches: &[Patch]) {
    for (at, size, number) in patches {
        for index in 0..*size {
            let place = at.wrapping_add(index);
            if place < bytes.len() && index < 8 {
                bytes[place] = number.to_le_bytes()[index];
            }
        }
    }
}

fn file(alloc: Global, len: usize, patches: &[Patch]) -> Result<Vec<u8>, AllocError> {
    let mut bytes = zeros(alloc, len)?;
    patch(&mut bytes, &FILE);
    patch(&mut bytes, patches);
    Ok(bytes)
}

fn broken_rule(alloc: Global, bytes: &[u8]) -> Option<(u8, u64)> {
    match Elf::read(alloc, bytes) {
        Ok(_) => None,
        Err(ElfError::Fault { rule, offset }) => Some((rule, offset)),
        Err(ElfError::Memory(_)) => Some((0, 0)),
    }
}

/// The bytes without those past the greatest length of a module.
fn longest(bytes: &[u8]) -> &[u8] {
    &bytes[..bytes.len().min(67_108_864)]
}

#[test]
fn reads_the_headers_or_names_the_first_broken_rule(rt: HostRuntime) -> Result<(), Fail> {
    for (len, patches, broken) in CASES.iter() {
        let bytes = file(rt.alloc(), *len, *patches)?;
        let found = broken_rule(rt.alloc(), bytes.as_slice());
        assert_eq!(rt; found, *broken, "a file of {len} bytes with {patches:?}");
    }
    let bytes = file(rt.alloc(), 67_108_865, &[])?;
    assert_eq!(rt;
        broken_rule(rt.alloc(), bytes.as_slice()),
        Some((1, 67_108_864))
    );
    assert_eq!(rt; broken_rule(rt.alloc(), longest(bytes.as_slice())), None);
    let bytes = file(rt.alloc(), LEN, &[])?;
    let elf = Elf::read(rt.alloc(), bytes.as_slice())?;
    let code = Segment {
        offset: 0,
        vaddr: 0,
        filesz: 512,
        memsz: 512,
        rights: Rights::R.union(Rights::X),
        header_at: 64,
    };
    let data = Segment {
        offset: 512,
        vaddr: 0x1200,
        filesz: 256,
        memsz: 8192,
        rights: Rights::R.union(Rights::W),
        header_at: 120,
    };
    assert_eq!(rt; elf.segments.as_slice(), [code, data].as_slice());
    let dynamic = DynHeader {
        vaddr: 0x1280,
        filesz: 32,
        header_at: 176,
    };
    assert_eq!(rt; elf.dynamics.as_slice(), [dynamic].as_slice());
    let symbols = SymbolSection {
        offset: 512,
        count: 2,
        strings_at: 560,
        strings_size: 16,
    };
    assert_eq!(rt; elf.symbols.as_slice(), [symbols].as_slice());
    Ok(())
}
