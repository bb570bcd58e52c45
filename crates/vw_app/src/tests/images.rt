use super::files::{Patch, file_of, image_of};
use std::test::Fail;
use vw_image::{Stub, StubTo, Word};
use vw_switch::target;

/// A file of 4,096 bytes with code, data that are read and written, data that are written alone, and more code.
const FILE: [Patch; 87] = [
    (0, 4, 0x464c_457f),
    (4, 1, 2),
    (5, 1, 1),
    (16, 2, 3),
    (18, 2, 62),
    (32, 8, 64),
    (54, 2, 56),
    (56, 2, 5),
    // PT_LOAD with R and X: 0x400 bytes from 0 at address 0, in memory 0x480
    (64, 4, 1),
    (68, 4, 5),
    (96, 8, 0x400),
    (104, 8, 0x480),
    // PT_LOAD with R and W: 0x800 bytes from 0x400 at 0x1400, in memory 0x1000
    (120, 4, 1),
    (124, 4, 6),
    (128, 8, 0x400),
    (136, 8, 0x1400),
    (152, 8, 0x800),
    (160, 8, 0x1000),
    // PT_LOAD with W alone: 0x100 bytes from 0xc00 at 0x3c00, in memory 0x200
    (176, 4, 1),
    (180, 4, 2),
    (184, 8, 0xc00),
    (192, 8, 0x3c00),
    (208, 8, 0x100),
    (216, 8, 0x200),
    // PT_LOAD with R and X: 0x100 bytes from 0xd00 at 0x5d00
    (232, 4, 1),
    (236, 4, 5),
    (240, 8, 0xd00),
    (248, 8, 0x5d00),
    (264, 8, 0x100),
    (272, 8, 0x100),
    // PT_DYNAMIC: six entries
    (288, 4, 2),
    (304, 8, 0x1400),
    (320, 8, 96),
    // DT_STRTAB, DT_STRSZ, DT_SYMTAB, DT_RELA, DT_RELASZ
    (0x400, 8, 5),
    (0x408, 8, 0x1600),
    (0x410, 8, 10),
    (0x418, 8, 5),
    (0x420, 8, 6),
    (0x428, 8, 0x1580),
    (0x430, 8, 7),
    (0x438, 8, 0x1500),
    (0x440, 8, 8),
    (0x448, 8, 96),
    // JUMP_SLOT on symbol 1 at 0x1904; RELATIVE at 0x3c08; GLOB_DAT on symbol 2 at 0x1808; RELATIVE at 0x1800
    (0x500, 8, 0x1904),
    (0x508, 8, 0x1_0000_0007),
    (0x518, 8, 0x3c08),
    (0x520, 8, 8),
    (0x528, 8, 0xffff_ffff_ffff_fff0),
    (0x530, 8, 0x1808),
    (0x538, 8, 0x2_0000_0006),
    (0x548, 8, 0x1800),
    (0x550, 8, 8),
    (0x558, 8, 0x123),
    // the imports f and g
    (0x598, 4, 1),
    (0x59c, 1, 0x12),
    (0x5b0, 4, 3),
    (0x5b4, 1, 0x12),
    (0x600, 5, 0x00_67_00_66_00),
    // what stands in the file under the relocations, around them, and at the ends of file parts
    (0x800, 8, 0x7f7f_7f7f_7f7f_7f7f),
    (0x808, 8, 0x7f7f_7f7f_7f7f_7f7f),
    (0x810, 8, 0x1122_3344_5566_7788),
    (0x904, 8, 0x7f7f_7f7f_7f7f_7f7f),
    (0xbfc, 4, 0xa1b2_c3d4),
    (0xc00, 8, 0x7f7f_7f7f_7f7f_7f7f),
    // a jump through 0x1808; the same behind ENDBR64 through 0x1800, and with BND through 0x1904
    (0x300, 2, 0x25ff),
    (0x302, 4, 0x1502),
    (0x310, 4, 0xfa1e_0ff3),
    (0x314, 2, 0x25ff),
    (0x316, 4, 0x14e6),
    (0x320, 4, 0xfa1e_0ff3),
    (0x324, 3, 0x25_fff2),
    (0x327, 4, 0x15d9),
    // with BND and no ENDBR64, through 0x1808
    (0x330, 3, 0x25_fff2),
    (0x333, 4, 0x14d1),
    // through 0x1810; through 0x1809; with the last byte of ENDBR64 one off
    (0x340, 2, 0x25ff),
    (0x342, 4, 0x14ca),
    (0x350, 2, 0x25ff),
    (0x352, 4, 0x14b3),
    (0x360, 4, 0xfb1e_0ff3),
    (0x364, 2, 0x25ff),
    (0x366, 4, 0x149e),
    // through 0x1808, with two bytes of the displacement past the file part
    (0x3fc, 4, 0x1406_25ff),
    // a jump in data, and one backwards, both through 0x1808, and one that leaves the memory
    (0xa00, 2, 0x25ff),
    (0xa02, 4, 0xffff_fe02),
    (0xd00, 2, 0x25ff),
    (0xd02, 4, 0xffff_bb02),
    (0xdfc, 4, 0xbb02_25ff),
];

/// An address, a size and what is there.
const WORDS: [(u64, u32, Word); 27] = [
    // of the file
    (0x1810, 8, Word::Plain(0x1122_3344_5566_7788)),
    (0x1810, 4, Word::Plain(0x5566_7788)),
    (0x1812, 2, Word::Plain(0x5566)),
    (0x1817, 1, Word::Plain(0x11)),
    (0x300, 4, Word::Plain(0x1502_25ff)),
    // past the file part, and at the end of the memory
    (0x1bfc, 8, Word::Plain(0xa1b2_c3d4)),
    (0x1c00, 8, Word::Plain(0)),
    (0x23f8, 8, Word::Plain(0)),
    (0x23f9, 8, Word::Outside),
    (0x47f, 1, Word::Plain(0)),
    (0x480, 1, Word::Outside),
    (0xffff_ffff_ffff_ffff, 8, Word::Outside),
    // no right to read
    (0x3c00, 8, Word::Outside),
    (0x3c08, 8, Word::Based(0xffff_ffff_ffff_fff0)),
    (0x3c08, 4, Word::Mixed),
    // at relocations and around them
    (0x1800, 8, Word::Based(0x123)),
    (0x1800, 4, Word::Mixed),
    (0x1807, 1, Word::Mixed),
    (0x17f8, 8, Word::Plain(0)),
    (0x17f9, 8, Word::Mixed),
    (0x1804, 8, Word::Mixed),
    (0x1808, 8, Word::Bound(1)),
    (0x1809, 8, Word::Mixed),
    (0x1900, 4, Word::Plain(0)),
    (0x1900, 8, Word::Mixed),
    (0x1904, 8, Word::Bound(0)),
    (0x190c, 8, Word::Plain(0)),
];

/// An address, a length and whether it is readable.
const RANGES: [(u64, u64, bool); 14] = [
    (0x1800, 8, true),
    (0x1800, 9, false),
    (0x1808, 8, false),
    (0x180f, 1, false),
    (0x1810, 0xf4, true),
    (0x1810, 0xf5, false),
    (0x190c, 0xaf4, true),
    (0x190c, 0xaf5, false),
    (0x1809, 0, true),
    (0x23ff, 0, true),
    (0x2400, 0, false),
    (0x3c00, 1, false),
    (0x300, 0x180, true),
    (0x1810, 0xffff_ffff_ffff_ffff, false),
];

/// An address, a length and where in the file its bytes are.
const PARTS: [(u64, u64, Option<usize>); 8] = [
    (0x1810, 8, Some(0x810)),
    (0x1bfc, 4, Some(0xbfc)),
    (0x1bfc, 5, None),
    (0x1bff, 0, Some(0xbff)),
    (0x1c00, 0, None),
    (0x3c00, 0x100, Some(0xc00)),
    (0x3ff, 2, None),
    (0xffff_ffff_ffff_ffff, 2, None),
];

/// An address and the stub there.
const STUBS: [(u64, Option<(u64, StubTo)>); 14] = [
    (0x300, Some((0x1808, StubTo::Import(1)))),
    (0x310, Some((0x1800, StubTo::Inside(0x123)))),
    (0x314, Some((0x1800, StubTo::Inside(0x123)))),
    (0x320, Some((0x1904, StubTo::Import(0)))),
    (0x324, None),
    (0x330, None),
    (0x331, Some((0x1808, StubTo::Import(1)))),
    (0x340, None),
    (0x350, None),
    (0x360, None),
    (0x3fc, Some((0x1808, StubTo::Import(1)))),
    (0x1a00, None),
    (0x5d00, Some((0x1808, StubTo::Import(1)))),
    (0x5dfc, None),
];

#[test]
fn words_follow_relocation(rt: HostRuntime) -> Result<(), Fail> {
    let image = image_of(rt.alloc(), file_of(rt.alloc(), 4096, &[&FILE])?).ok_or("an image")?;
    for (address, size, word) in WORDS.iter() {
        if matches!(*size, 1 | 2 | 4 | 8) {
            assert_eq!(rt;
                image.word_at(*address, *size),
                *word,
                "{size} bytes at {address:#x}"
            );
        }
    }
    for (address, size, readable) in RANGES.iter() {
        assert_eq!(rt;
            image.readable(*address, *size),
            *readable,
            "{size} bytes at {address:#x}"
        );
    }
    Ok(())
}

#[test]
fn parts_of_the_file_are_lent(rt: HostRuntime) -> Result<(), Fail> {
    let image = image_of(rt.alloc(), file_of(rt.alloc(), 4096, &[&FILE])?).ok_or("an image")?;
    for (address, size, place) in PARTS.iter() {
        let lent = image.bytes_at(*address, *size);
        let expected = place.and_then(|from| image.bytes().get(from..from + *size as usize));
        assert_eq!(rt; lent, expected, "{size} bytes at {address:#x}");
    }
    assert_eq!(rt; image.segments().len(), 4);
    assert_eq!(rt; image.imports().len(), 2);
    Ok(())
}

#[test]
fn stubs_jump_through_relocated_words(rt: HostRuntime) -> Result<(), Fail> {
    let image = image_of(rt.alloc(), file_of(rt.alloc(), 4096, &[&FILE])?).ok_or("an image")?;
    for (address, stub) in STUBS.iter() {
        let expected = stub.map(|(slot, to)| Stub { slot, to });
        assert_eq!(rt; image.stub_at(*address), expected, "at {address:#x}");
    }
    Ok(())
}

/// Distances in code and in data, with RELATIVE at 0x1718 in the place of the first relocation.
const DISTANCES: [Patch; 15] = [
    (0x500, 8, 0x1718),
    (0x508, 8, 8),
    // in code, at 0x180: to 0x200, 0x2ff and 0x300, and 2^31 below
    (0x180, 4, 0x80),
    (0x184, 4, 0x17f),
    (0x188, 4, 0x180),
    (0x18c, 4, 0x8000_0000),
    // in data, at 0x1700: to 0x200, 0x2ff, 0x300, 0x1ff, 0x280 and 0x210; to 0x200 twice, under the relocation; to 0x220
    (0x700, 4, 0xffff_eb00),
    (0x704, 4, 0xffff_ebff),
    (0x708, 4, 0xffff_ec00),
    (0x70c, 4, 0xffff_eaff),
    (0x710, 4, 0xffff_eb80),
    (0x714, 4, 0xffff_eb10),
    (0x718, 4, 0xffff_eb00),
    (0x71c, 4, 0xffff_eb00),
    (0x720, 4, 0xffff_eb20),
];

/// A table's address, the number of an entry, a function's entry and size, and where the entry leads.
const TARGETS: [(u64, u64, u64, u32, Option<u32>); 23] = [
    // forwards: the first byte, the last one, and the one behind it
    (0x180, 0, 0x200, 0x100, Some(0)),
    (0x180, 1, 0x200, 0x100, Some(0xff)),
    (0x180, 2, 0x200, 0x100, None),
    (0x180, 2, 0x200, 0x101, Some(0x100)),
    (0x180, 0, 0x200, 0, None),
    // backwards: the first byte, the last one, the one behind it, the one in front, and between
    (0x1700, 0, 0x200, 0x100, Some(0)),
    (0x1700, 1, 0x200, 0x100, Some(0xff)),
    (0x1700, 2, 0x200, 0x100, None),
    (0x1700, 3, 0x200, 0x100, None),
    (0x1700, 4, 0x200, 0x100, Some(0x80)),
    // under the relocation, and beside it on both sides
    (0x1700, 5, 0x200, 0x100, Some(0x10)),
    (0x1700, 6, 0x200, 0x100, None),
    (0x1700, 7, 0x200, 0x100, None),
    (0x1700, 8, 0x200, 0x100, Some(0x20)),
    // the distance counts from the table, and not from the entry
    (0x1704, 0, 0x200, 0x100, None),
    (0x1704, 0, 0x200, 0x104, Some(0x103)),
    // the last word of the memory, one byte past it, and behind it
    (0x23fc, 0, 0x23f0, 0x10, Some(0xc)),
    (0x23fd, 0, 0x23f0, 0x10, None),
    (0x2400, 0, 0x23f0, 0x20, None),
    // below 0 no sum comes round from 2^64
    (0x180, 3, 0xffff_ffff_8000_0180, 1, None),
    // at 2^64 no address comes round to 0
    (0xffff_ffff_ffff_fffc, 0, 0xffff_ffff_ffff_fff0, 0x10, None),
    (0xffff_ffff_ffff_fffc, 1, 0x464c_4500, 0x100, None),
    (0x1700, 0x4000_0000_0000_0000, 0x200, 0x100, None),
];

#[test]
fn entries_lead_by_signed_distances(rt: HostRuntime) -> Result<(), Fail> {
    let file = file_of(rt.alloc(), 4096, &[&FILE, &DISTANCES])?;
    let image = image_of(rt.alloc(), file).ok_or("an image")?;
    for (base, i, entry, size, point) in TARGETS.iter() {
        assert_eq!(rt;
            target(&image, *base, *i, *entry, *size),
            *point,
            "entry {i} of the table at {base:#x}"
        );
    }
    Ok(())
}
