use crate::{CallTarget, Module, ModuleError};
use std::alloc::{AllocError, Global};
use std::test::Fail;
use vw_bits::List;
use vw_image::{Stub, StubTo, Word};

/// A number of so many bytes at an offset: (offset, bytes, number). Past eight bytes the highest repeats.
type Patch = (usize, usize, u64);

/// A file with patches, and the rule and offset that it breaks.
type Case = (&'static [Patch], Option<(u8, u64)>);

/// A symbol's name, type and section header.
type Kind = (u64, u64, u64);

/// Symbol 4 of a file of a length: its kind, value and size; and the rule and offset that the file breaks.
type Fourth = (usize, Kind, u64, u64, Option<(u8, u64)>);

/// A file of 4,096 bytes. Code is at addresses below 0x200, and data from 0x1200 on, each 0x1000 above its
/// offset: the dynamic section from 512, relocations from 768, the pairs from 1024, two tables from 1088 and
/// 1152, the slot of a stub at 1216, dynamic symbols from 1280, symbols from 1536, strings from 2048, section
/// headers from 3584.
const FILE: [Patch; 107] = [
    (0, 4, 0x464c_457f),
    (4, 1, 2),
    (5, 1, 1),
    (16, 2, 3),
    (18, 2, 62),
    (32, 8, 64),
    (40, 8, 3584),
    (54, 2, 56),
    (56, 2, 3),
    (58, 2, 64),
    (60, 2, 4),
    // PT_LOAD with R and X: 512 bytes from 0 at address 0
    (64, 4, 1),
    (68, 4, 5),
    (96, 8, 512),
    (104, 8, 512),
    // PT_LOAD with R and W: 3584 bytes from 512 at 0x1200, in memory 8192
    (120, 4, 1),
    (124, 4, 6),
    (128, 8, 512),
    (136, 8, 0x1200),
    (152, 8, 3584),
    (160, 8, 8192),
    // PT_DYNAMIC
    (176, 4, 2),
    (192, 8, 0x1200),
    (208, 8, 112),
    // the stub at 0x140: FF 25, and 0x14c0 less the next address
    (320, 2, 0x25ff),
    (322, 4, 0x137a),
    // DT_STRTAB, DT_STRSZ, DT_SYMTAB, DT_RELA, DT_RELASZ, DT_RELAENT, DT_NULL
    (512, 8, 5),
    (520, 8, 0x1800),
    (528, 8, 10),
    (536, 8, 64),
    (544, 8, 6),
    (552, 8, 0x1500),
    (560, 8, 7),
    (568, 8, 0x1300),
    (576, 8, 8),
    (584, 8, 192),
    (592, 8, 9),
    (600, 8, 24),
    // RELATIVE: the two pairs, and the pointers to f, g and the stub
    (768, 8, 0x1400),
    (776, 8, 8),
    (784, 8, 0x1440),
    (792, 8, 0x1410),
    (800, 8, 8),
    (808, 8, 0x1480),
    (816, 8, 0x1448),
    (824, 8, 8),
    (832, 8, 0x100),
    (840, 8, 0x1488),
    (848, 8, 8),
    (856, 8, 0x120),
    (864, 8, 0x14a8),
    (872, 8, 8),
    (880, 8, 0x140),
    // 64 and GLOB_DAT on dynamic symbol 1: a pointer, and the slot
    (888, 8, 0x1498),
    (896, 8, 0x1_0000_0001),
    (912, 8, 0x14c0),
    (920, 8, 0x1_0000_0006),
    // the lengths of the tables
    (1032, 8, 2),
    (1048, 8, 3),
    // tags 5 and empty; 1, 2 and 3
    (1088, 8, 5),
    (1104, 8, 0xffff_ffff_ffff_ffff),
    (1152, 8, 1),
    (1168, 8, 2),
    (1184, 8, 3),
    // imports x and lucet_probestack
    (1304, 4, 37),
    (1308, 1, 0x12),
    (1328, 4, 18),
    (1332, 1, 0x12),
    // f at 0x100 and g at 0x120, 16 bytes each
    (1560, 4, 1),
    (1564, 1, 0x12),
    (1566, 2, 1),
    (1568, 8, 0x100),
    (1576, 8, 16),
    (1584, 4, 3),
    (1588, 1, 0x12),
    (1590, 2, 1),
    (1592, 8, 0x120),
    (1600, 8, 16),
    // lucet_tables, an object of 32 bytes
    (1608, 4, 5),
    (1612, 1, 0x11),
    (1614, 2, 2),
    (1616, 8, 0x1400),
    (1624, 8, 32),
    // f, g, lucet_tables, lucet_probestack, h and x at 1, 3, 5, 18, 35 and 37
    (2049, 1, 0x66),
    (2051, 1, 0x67),
    (2053, 8, 0x6174_5f74_6563_756c),
    (2061, 4, 0x7365_6c62),
    (2066, 8, 0x7270_5f74_6563_756c),
    (2074, 8, 0x6b63_6174_7365_626f),
    (2083, 1, 0x68),
    (2085, 1, 0x78),
    // SHT_SYMTAB with six symbols, SHT_DYNSYM with three, and SHT_STRTAB
    (3652, 4, 2),
    (3672, 8, 1536),
    (3680, 8, 144),
    (3688, 4, 3),
    (3704, 8, 24),
    (3716, 4, 11),
    (3736, 8, 1280),
    (3744, 8, 72),
    (3752, 4, 3),
    (3768, 8, 24),
    (3780, 4, 3),
    (3800, 8, 2048),
    (3808, 8, 64),
    (1556, 1, 0),
    (1558, 2, 0),
    (1552, 8, 0),
];

const LEN: usize = 4096;

/// The length of a file with a third segment.
const LONG: usize = 0x10_1010;

/// A third segment with R and X: 0x100010 bytes from 4096 at 0x4000.
const THIRD: [Patch; 7] = [
    (56, 2, 4),
    (232, 4, 1),
    (236, 4, 5),
    (240, 8, 4096),
    (248, 8, 0x4000),
    (264, 8, 0x10_0010),
    (272, 8, 0x10_0010),
];

/// A function without a name, and the tables.
const FUNCTION: Kind = (0, 2, 1);

const TABLES: Kind = (5, 1, 2);

/// Each expected rule and offset is worked out by hand from the text of the rules.
const FOURTH: [Fourth; 16] = [
    // 28: to the end of the code, a byte further, in data
    (LEN, FUNCTION, 0x1f0, 16, None),
    (LEN, FUNCTION, 0x1f0, 17, Some((28, 1632))),
    (LEN, FUNCTION, 0x1f00, 1, Some((28, 1632))),
    // 28: 1,048,576 and 1,048,577 bytes
    (LONG, FUNCTION, 0x4000, 0x10_0000, None),
    (LONG, FUNCTION, 0x4000, 0x10_0001, Some((28, 1632))),
    // 29: one address, one size
    (LEN, FUNCTION, 0x100, 16, None),
    (LEN, FUNCTION, 0x100, 8, Some((29, 1632))),
    // 30: the last byte, inside, just behind, just before
    (LEN, FUNCTION, 0x10f, 4, Some((30, 1632))),
    (LEN, FUNCTION, 0x104, 4, Some((30, 1632))),
    (LEN, FUNCTION, 0x110, 16, None),
    (LEN, FUNCTION, 0xf8, 8, None),
    (LEN, FUNCTION, 0xf8, 9, Some((30, 1560))),
    // 32: another symbol of the tables, of the same range, of another value, of another size
    (LEN, TABLES, 0x1400, 32, None),
    (LEN, TABLES, 0x1410, 32, Some((32, 1632))),
    (LEN, TABLES, 0x1400, 16, Some((32, 1632))),
    // 35: the stub, where a function begins there too
    (LEN, FUNCTION, 0x140, 6, None),
];

/// Each expected rule and offset is worked out by hand from the text of the rules. Symbol 4, at 1632, is free:
/// h where a case makes it one; and so is relocation 7, at 936.
const CASES: [Case; 51] = [
    (&[], None),
    // 27: past the strings, and without an end
    (&[(1560, 4, 64)], Some((27, 1560))),
    (&[(1560, 4, 63)], None),
    (&[(1560, 4, 37), (3808, 8, 38)], Some((27, 1560))),
    (&[(1560, 4, 37), (3808, 8, 39)], None),
    // 27: 1,024 and 1,025 bytes
    (
        &[
            (1560, 4, 128),
            (3808, 8, 1300),
            (2176, 1024, 0x6161_6161_6161_6161),
        ],
        None,
    ),
    (
        &[
            (1560, 4, 128),
            (3808, 8, 1300),
            (2176, 1025, 0x6161_6161_6161_6161),
        ],
        Some((27, 1560)),
    ),
    // no function symbols: undefined, reserved, of another type, of size 0
    (&[(1632, 4, 64), (1636, 1, 0x12), (1648, 8, 1)], None),
    (
        &[
            (1632, 4, 64),
            (1636, 1, 0x12),
            (1638, 2, 0xff00),
            (1648, 8, 1),
        ],
        None,
    ),
    (
        &[(1632, 4, 64), (1636, 1, 0x11), (1638, 2, 1), (1648, 8, 1)],
        None,
    ),
    (&[(1632, 4, 64), (1636, 1, 0x12), (1638, 2, 1)], None),
    (
        &[
            (1632, 4, 64),
            (1636, 1, 0x22),
            (1638, 2, 0xfeff),
            (1648, 8, 1),
        ],
        Some((27, 1632)),
    ),
    // 27: both sections, the first one first
    (
        &[(1310, 2, 1), (1320, 8, 1), (1304, 4, 64)],
        Some((27, 1304)),
    ),
    (
        &[(1310, 2, 1), (1320, 8, 1), (1304, 4, 64), (1584, 4, 64)],
        Some((27, 1584)),
    ),
    // 30: the lowest address that overlaps, whatever its index
    (
        &[
            (1636, 1, 2),
            (1638, 2, 1),
            (1640, 8, 0x124),
            (1648, 8, 4),
            (1660, 1, 2),
            (1662, 2, 1),
            (1664, 8, 0x104),
            (1672, 8, 4),
        ],
        Some((30, 1656)),
    ),
    // 32: the size of the tables
    (&[(1624, 8, 31)], Some((32, 1608))),
    (&[(1624, 8, 1040)], Some((32, 1608))),
    (&[(1624, 8, 1024)], Some((33, 1056))),
    (&[(1624, 8, 16)], None),
    // without the symbol there are no tables
    (&[(1608, 4, 6), (768, 8, 0x1f00)], None),
    // 33: the range, also an empty one at the very end
    (&[(1616, 8, 0x1fe1)], Some((33, 1608))),
    (&[(1616, 8, 0x2000), (1624, 8, 0)], Some((33, 1608))),
    (&[(1616, 8, 0x1fff), (1624, 8, 0)], None),
    (&[(124, 4, 2)], Some((33, 1608))),
    // 33: an address that is plain, and lengths that are too great or not plain
    (&[(776, 8, 0)], Some((33, 1024))),
    (&[(1032, 8, 65_537)], Some((33, 1024))),
    (&[(1048, 8, 65_537)], Some((33, 1040))),
    (&[(936, 8, 0x1408), (944, 8, 8)], Some((33, 1024))),
    // 34: too long, in code, past the end
    (&[(1032, 8, 65_536)], Some((34, 1024))),
    (&[(784, 8, 0x100)], Some((34, 1024))),
    (&[(808, 8, 0x1fe0)], Some((34, 1040))),
    (&[(784, 8, 0x2000), (1032, 8, 0)], Some((34, 1024))),
    (&[(784, 8, 0x1fff), (1032, 8, 0)], None),
    // 35: the tags
    (&[(1088, 8, 0xffff_fffe)], None),
    (&[(1088, 8, 0xffff_ffff)], Some((35, 1088))),
    (&[(1104, 8, 7)], Some((35, 1104))),
    (&[(936, 8, 0x1440), (944, 8, 8)], Some((35, 1088))),
    // 35: a pointer into f, and one to a stub whose word is plain, a function's, or inside one
    (&[(832, 8, 0x104)], Some((35, 1088))),
    (&[(920, 8, 0)], Some((35, 1184))),
    (&[(920, 8, 8), (928, 8, 0x100)], None),
    (&[(920, 8, 8), (928, 8, 0x104)], Some((35, 1184))),
    // 35: the probe, as an import, by its stub, and by its stub at which a function begins
    (&[(896, 8, 0x2_0000_0001)], Some((35, 1168))),
    (&[(920, 8, 0x2_0000_0006)], Some((35, 1184))),
    (
        &[
            (920, 8, 0x2_0000_0006),
            (1636, 1, 2),
            (1638, 2, 1),
            (1640, 8, 0x140),
            (1648, 8, 6),
        ],
        Some((35, 1184)),
    ),
    // a declared function of the probe's name is an ordinary one
    (&[(1560, 4, 18)], None),
    // the lowest rule, whatever breaks first in the file
    (
        &[
            (1088, 8, 0xffff_ffff),
            (1640, 8, 0x104),
            (1636, 1, 2),
            (1638, 2, 1),
            (1648, 8, 1),
        ],
        Some((30, 1632)),
    ),
    (&[(776, 8, 0), (1584, 4, 64)], Some((27, 1584))),
    (&[(784, 8, 0x100), (1048, 8, 65_537)], Some((33, 1040))),
    (&[(1104, 8, 7), (808, 8, 0x1fe0)], Some((34, 1040))),
    // rules below 27 come first
    (&[(1560, 4, 64), (16, 2, 2)], Some((5, 16))),
    (&[(1560, 4, 64), (776, 8, 2)], Some((23, 768))),
];

/// A file whose third entry of the second table is empty, with patches, and what a call of its stub enters.
type Call = (&'static [Patch], Option<CallTarget>);

/// The slot of the stub is bound to x, based on g, based inside g, and bound to the probe; and so again where a
/// function begins at the stub.
const CALLS: [Call; 6] = [
    (
        &[],
        Some(CallTarget::Stub(Stub {
            slot: 0x14c0,
            to: StubTo::Import(0),
        })),
    ),
    (
        &[(920, 8, 8), (928, 8, 0x120)],
        Some(CallTarget::Stub(Stub {
            slot: 0x14c0,
            to: StubTo::Inside(0x120),
        })),
    ),
    (&[(920, 8, 8), (928, 8, 0x121)], None),
    (&[(920, 8, 0x2_0000_0006)], Some(CallTarget::Probe)),
    (
        &[(1636, 1, 2), (1638, 2, 1), (1640, 8, 0x140), (1648, 8, 6)],
        Some(CallTarget::Function(2)),
    ),
    (
        &[
            (920, 8, 0x2_0000_0006),
            (1636, 1, 2),
            (1638, 2, 1),
            (1640, 8, 0x140),
            (1648, 8, 6),
        ],
        Some(CallTarget::Probe),
    ),
];

fn zeros(alloc: Global, len: usize) -> Result<Vec<u8>, AllocError> {
    vec![in alloc; 0u8; len]
}

fn patch(bytes: &mut Vec<u8>, patches: &[Patch]) {
    for (at, size, number) in patches {
        let digits = number.to_le_bytes();
        for index in 0..*size {
            let place = at.wrapping_add(index);
            if place < bytes.len() {
                bytes[place] = digits[index.min(7)];
            }
        }
    }
}

fn file(alloc: Global, len: usize, patches: &[Patch]) -> Result<List<u8>, AllocError> {
    let mut bytes = zeros(alloc, len)?;
    patch(&mut bytes, &FILE);
    if len == LONG {
        patch(&mut bytes, &THIRD);
    }
    patch(&mut bytes, patches);
    Ok(List::from_vec(bytes))
}

fn broken_rule(alloc: Global, bytes: List<u8>) -> Option<(u8, u64)> {
    match Module::read(alloc, bytes) {
        Ok(_) => None,
        Err(ModuleError::Malformed { rule, offset }) => Some((rule, offset)),
        Err(ModuleError::Memory(_)) => Some((0, 0)),
    }
}

/// Where the 65,537th symbol or relocation of the files below begins.
const BEHIND: u64 = 4096 + 24 * 65_536;

/// A file without tables whose section of symbols has `count` functions of one byte from 0x4000 on.
fn functions(alloc: Global, count: usize) -> Result<List<u8>, AllocError> {
    let count = count.min(100_000);
    let code = 4096 + 24 * count;
    let mut bytes = zeros(alloc, code + count)?;
    patch(&mut bytes, &FILE);
    let size = count as u64;
    patch(
        &mut bytes,
        &[
            (56, 2, 4),
            (232, 4, 1),
            (236, 4, 5),
            (240, 8, code as u64),
            (248, 8, 0x40_0000 + code as u64 % 4096),
            (264, 8, size),
            (272, 8, size),
            (3672, 8, 4096),
            (3680, 8, 24 * size),
        ],
    );
    for index in 0..count {
        let at = 4096 + 24 * index;
        let value = 0x40_0000 + code as u64 % 4096 + index as u64;
        patch(
            &mut bytes,
            &[
                (at + 4, 1, 2),
                (at + 6, 2, 1),
                (at + 8, 8, value),
                (at + 16, 8, 1),
            ],
        );
    }
    Ok(List::from_vec(bytes))
}

/// A file without sections, of `count` relocations on imports of as many names. A name is its index in base
/// 128, of three bytes above 127.
fn imports(alloc: Global, count: usize) -> Result<List<u8>, AllocError> {
    let count = count.min(100_000);
    let symbols = 4096 + 24 * count;
    let strings = symbols + 24 * count + 24;
    let len = strings + 4 * count + 1;
    let mut bytes = zeros(alloc, len)?;
    patch(&mut bytes, &FILE);
    let size = (len - 512) as u64;
    patch(
        &mut bytes,
        &[
            (60, 2, 0),
            (152, 8, size),
            (160, 8, size + 8 * count as u64),
            (520, 8, strings as u64 + 0x1000),
            (536, 8, 4 * count as u64 + 1),
            (552, 8, symbols as u64 + 0x1000),
            (568, 8, 0x2000),
            (584, 8, 24 * count as u64),
        ],
    );
    for index in 0..count {
        let rela = 4096 + 24 * index;
        let symbol = symbols + 24 + 24 * index;
        let name = 1 + 4 * index;
        let number = index as u64;
        let digits = 0x80_8080
            + number % 128
            + number / 128 % 128 * 256
            + number / 16_384 % 128 * 65_536;
        patch(
            &mut bytes,
            &[
                (rela, 8, len as u64 + 0x1000 + 8 * number),
                (rela + 8, 4, 6),
                (rela + 12, 4, number + 1),
                (symbol, 4, name as u64),
                (symbol + 4, 1, 0x12),
                (strings + name, 3, digits),
            ],
        );
    }
    Ok(List::from_vec(bytes))
}

#[test]
fn names_the_first_broken_rule(rt: HostRuntime) -> Result<(), Fail> {
    for (patches, broken) in CASES.iter() {
        let bytes = file(rt.alloc(), LEN, *patches)?;
        let found = broken_rule(rt.alloc(), bytes);
        assert_eq!(rt; found, *broken, "a file with {patches:?}");
    }
    for (len, kind, value, size, broken) in FOURTH.iter() {
        let (name, info, section) = *kind;
        let symbol: [Patch; 5] = [
            (1632, 4, name),
            (1636, 1, info),
            (1638, 2, section),
            (1640, 8, *value),
            (1648, 8, *size),
        ];
        let found = broken_rule(rt.alloc(), file(rt.alloc(), *len, &symbol)?);
        assert_eq!(rt; found, *broken, "a file of {len} bytes with {symbol:?}");
    }
    Ok(())
}

#[test]
fn counts_functions(rt: HostRuntime) -> Result<(), Fail> {
    let bytes = functions(rt.alloc(), 65_536)?;
    assert_eq!(rt; broken_rule(rt.alloc(), bytes), None);
    let bytes = functions(rt.alloc(), 65_537)?;
    assert_eq!(rt; broken_rule(rt.alloc(), bytes), Some((31, BEHIND)));
    Ok(())
}

#[test]
fn counts_imports(rt: HostRuntime) -> Result<(), Fail> {
    let bytes = imports(rt.alloc(), 65_536)?;
    assert_eq!(rt; broken_rule(rt.alloc(), bytes), None);
    let bytes = imports(rt.alloc(), 65_537)?;
    assert_eq!(rt; broken_rule(rt.alloc(), bytes), Some((36, BEHIND)));
    Ok(())
}

#[test]
fn reads_functions_and_tables(rt: HostRuntime) -> Result<(), Fail> {
    // symbol 4 gives f another name, and symbol 5 is another f, below it
    let patches: [Patch; 9] = [
        (1632, 4, 35),
        (1636, 1, 2),
        (1638, 2, 1),
        (1640, 8, 0x100),
        (1648, 8, 16),
        (1656, 4, 1),
        (1660, 1, 2),
        (1662, 2, 1),
        (1672, 8, 0x20),
    ];
    let bytes = file(rt.alloc(), LEN, &patches)?;
    let module = Module::read(rt.alloc(), bytes)?;
    let functions = module.functions.as_slice();
    assert_eq!(rt; functions.len(), 3);
    assert_eq!(rt; (functions[1].entry, functions[1].size), (0x100, 16));
    assert_eq!(rt; functions[1].name.as_slice(), b"f".as_slice());
    assert_eq!(rt; module.function_at(0x120), Some(2));
    assert_eq!(rt; module.function_at(0x121), None);
    assert_eq!(rt; module.named(b"f"), Some(0));
    assert_eq!(rt; module.named(b"g"), Some(2));
    assert_eq!(rt; module.named(b"h"), None);
    assert_eq!(rt; module.call_target(0x120), Some(CallTarget::Function(2)));
    assert_eq!(rt; module.call_target(0x121), None);
    let stub = Stub {
        slot: 0x14c0,
        to: StubTo::Import(0),
    };
    assert_eq!(rt; module.stub_at(0x140), Some(stub));
    assert_eq!(rt; module.stub_at(0x141), None);
    assert!(rt; !module.is_probe(0));
    let tables = module.tables.as_slice();
    assert_eq!(rt; tables.len(), 2);
    assert_eq!(rt; tables[1].address, 0x1480);
    let entries = tables[1].entries.as_slice();
    assert_eq!(rt; entries.len(), 3);
    assert_eq!(rt;
        (entries[0].tag, entries[0].pointer),
        (1, Word::Based(0x120))
    );
    assert_eq!(rt; entries[1].pointer, Word::Bound(0));
    let entries = tables[0].entries.as_slice();
    assert_eq!(rt; entries.len(), 2);
    assert_eq!(rt; entries[1].tag, 0xffff_ffff_ffff_ffff);
    Ok(())
}

#[test]
fn calls_enter(rt: HostRuntime) -> Result<(), Fail> {
    for (patches, target) in CALLS.iter() {
        let mut bytes = zeros(rt.alloc(), LEN)?;
        patch(&mut bytes, &FILE);
        patch(&mut bytes, &[(1184, 8, 0xffff_ffff_ffff_ffff)]);
        patch(&mut bytes, *patches);
        let module = Module::read(rt.alloc(), List::from_vec(bytes))?;
        assert_eq!(rt; module.call_target(0x140), *target, "{patches:?}");
    }
    Ok(())
}
