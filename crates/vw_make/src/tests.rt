ghost use Rattle.std.specs.Prelude.{◌≡◌, [], ◌∷◌, Some, None, IfOk};
ghost use Rattle.vw_make.specs.Bounds.{MeetsBounds};

use crate::{Func, Parts, Target, make, write_module};
use std::alloc::{AllocError, Global};
use std::test::Fail;
use vw_bits::{List, OutOfMemory, Text};

/// A number of so many bytes at an offset: (offset, bytes, number).
type Patch = (usize, usize, u64);

/// The size of the file.
const LEN: usize = 4616;

/// All bytes of the file that are not 0, worked out from the text of the format by a script of its own.
const FILE: [Patch; 106] = [
    // e_ident, e_type, e_machine, e_version
    (0, 4, 1_179_403_647),
    (4, 1, 2),
    (5, 1, 1),
    (6, 1, 1),
    (16, 2, 3),
    (18, 2, 62),
    (20, 4, 1),
    // e_phoff, e_shoff
    (32, 8, 64),
    (40, 8, 4424),
    // e_ehsize, e_phentsize, e_phnum, e_shentsize, e_shnum
    (52, 2, 64),
    (54, 2, 56),
    (56, 2, 3),
    (58, 2, 64),
    (60, 2, 3),
    // PT_LOAD with R and X, to the end of the text
    (64, 4, 1),
    (68, 4, 5),
    (96, 8, 496),
    (104, 8, 496),
    (112, 8, 4096),
    // PT_LOAD with R and W, from the slots to the end of the dynamic section
    (120, 4, 1),
    (124, 4, 6),
    (128, 8, 4096),
    (136, 8, 4096),
    (152, 8, 208),
    (160, 8, 208),
    (168, 8, 4096),
    // PT_DYNAMIC
    (176, 4, 2),
    (180, 4, 6),
    (184, 8, 4176),
    (192, 8, 4176),
    (208, 8, 128),
    (216, 8, 128),
    (224, 8, 8),
    // the dynamic symbols `a` and `bc`
    (256, 4, 1),
    (260, 1, 18),
    (280, 4, 3),
    (284, 1, 18),
    // their names
    (304, 8, 0x63_6200_6100),
    // the relocations: two slots, a pair, an entry, a bind
    (312, 8, 4096),
    (320, 4, 6),
    (324, 4, 1),
    (336, 8, 4104),
    (344, 4, 6),
    (348, 4, 2),
    (360, 8, 4112),
    (368, 4, 8),
    (376, 8, 4128),
    (384, 8, 4136),
    (392, 4, 8),
    (400, 8, 448),
    (408, 8, 4161),
    (416, 4, 1),
    (420, 4, 2),
    // `f`, whose first fix leads to 480 and whose second to 4120
    (432, 8, 0x5d05_8b00_0000_2be8),
    (440, 8, 0xcccc_cccc_c300_000e),
    // `gg`
    (448, 8, 0xcccc_cccc_cccc_ccc3),
    (456, 8, 0xcccc_cccc_cccc_cccc),
    // the stubs
    (464, 8, 0xcccc_0000_0e2a_25ff),
    (472, 8, 0xcccc_cccc_cccc_cccc),
    (480, 8, 0xcccc_0000_0e22_25ff),
    (488, 8, 0xcccc_cccc_cccc_cccc),
    // `lucet_tables`: the length of the table at 4128
    (4120, 8, 2),
    // the entries: a tag, and an empty one
    (4128, 8, 5),
    (4144, 8, 0xffff_ffff_ffff_ffff),
    // the data, without the eight bytes under the bind
    (4160, 8, 1),
    (4168, 8, 2560),
    // the dynamic section
    (4176, 8, 5),
    (4184, 8, 304),
    (4192, 8, 6),
    (4200, 8, 232),
    (4208, 8, 10),
    (4216, 8, 6),
    (4224, 8, 11),
    (4232, 8, 24),
    (4240, 8, 7),
    (4248, 8, 312),
    (4256, 8, 8),
    (4264, 8, 120),
    (4272, 8, 9),
    (4280, 8, 24),
    // the symbols `f`, `gg` and `lucet_tables`
    (4328, 4, 1),
    (4332, 1, 18),
    (4334, 2, 1),
    (4336, 8, 432),
    (4344, 8, 12),
    (4352, 4, 3),
    (4356, 1, 18),
    (4358, 2, 1),
    (4360, 8, 448),
    (4368, 8, 1),
    (4376, 4, 6),
    (4380, 1, 17),
    (4382, 2, 1),
    (4384, 8, 4112),
    (4392, 8, 16),
    // their names
    (4400, 8, 0x756c_0067_6700_6600),
    (4408, 8, 0x6c62_6174_5f74_6563),
    (4416, 8, 29_541),
    // SHT_SYMTAB
    (4492, 4, 2),
    (4512, 8, 4304),
    (4520, 8, 96),
    (4528, 4, 2),
    (4544, 8, 24),
    // SHT_STRTAB
    (4556, 4, 3),
    (4576, 8, 4400),
    (4584, 8, 19),
];

/// `call` with a displacement, `mov eax, [rip + disp32]`, `ret`.
const CODE: [u8; 12] = [0xE8, 0, 0, 0, 0, 0x8B, 0x05, 0, 0, 0, 0, 0xC3];

const RETURN: [u8; 1] = [0xC3];

const CONTENT: [u8; 10] = [1, 2, 3, 4, 5, 6, 7, 8, 9, 10];

fn text_of(alloc: Global, bytes: &[u8]) -> Result<Text, OutOfMemory>
    ensures { IfOk result (λ text. text ≡ bytes.now) }
{
    let mut text = Text::new(alloc);
    text.push(bytes)?;
    Ok(text)
}

fn func_of(
    alloc: Global,
    name: &[u8],
    code: &[u8],
    fixes: List<(u32, Target)>,
) -> Result<Func, OutOfMemory>
    ensures { IfOk result (λ f. f ≡ record { name = name.now; code = code.now; fixes = fixes }) }
{
    let name = text_of(alloc, name)?;
    let code = List::from_vec(Vec::from_slice(alloc, code)?);
    Ok(Func { name, code, fixes })
}

/// Two functions, the first with two fixes.
fn functions_of(alloc: Global) -> Result<List<Func>, OutOfMemory>
    ensures { IfOk result (λ fs. fs ≡ record { name = 102 ∷ []; code = CODE; fixes = (1, Target.Stub 1) ∷ (7, Target.Tables 8) ∷ [] } ∷ record { name = 103 ∷ 103 ∷ []; code = RETURN; fixes = [] } ∷ []) }
{
    let fixes = List::from_vec(vec![in alloc; (1, Target::Stub(1)), (7, Target::Tables(8))]?);
    let first = func_of(alloc, b"f", &CODE, fixes)?;
    let second = func_of(alloc, b"gg", &RETURN, List::new(alloc))?;
    Ok(List::from_vec(vec![in alloc; first, second]?))
}

fn imports_of(alloc: Global) -> Result<List<Text>, OutOfMemory>
    ensures { IfOk result (λ imports. imports ≡ (97 ∷ []) ∷ (98 ∷ 99 ∷ []) ∷ []) }
{
    let first = text_of(alloc, b"a")?;
    let second = text_of(alloc, b"bc")?;
    Ok(List::from_vec(vec![in alloc; first, second]?))
}

/// A table of two entries, the second empty.
fn tables_of(alloc: Global) -> Result<List<List<(u64, Option<u32>)>>, OutOfMemory>
    ensures { IfOk result (λ tables. tables ≡ ((5, Some 1) ∷ (9, None) ∷ []) ∷ []) }
{
    let entries = List::from_vec(vec![in alloc; (5, Some(1)), (9, None)]?);
    Ok(List::from_vec(vec![in alloc; entries]?))
}

/// Two imports, a table of two entries, the second empty, and data with a bound word.
fn parts_of(alloc: Global) -> Result<Parts, OutOfMemory>
    ensures { IfOk result (λ parts. MeetsBounds parts) }
{
    Ok(Parts {
        functions: functions_of(alloc)?,
        imports: imports_of(alloc)?,
        tables: tables_of(alloc)?,
        content: List::from_vec(Vec::from_slice(alloc, &CONTENT)?),
        binds: List::from_vec(vec![in alloc; (1, 1)]?),
    })
}

fn expected(alloc: Global) -> Result<Vec<u8>, AllocError> {
    let mut bytes = vec![in alloc; 0u8; LEN]?;
    for (at, size, number) in &FILE {
        for index in 0..*size {
            let place = at.wrapping_add(index);
            if place < bytes.len() && index < 8 {
                bytes[place] = number.to_le_bytes()[index];
            }
        }
    }
    Ok(bytes)
}

#[test]
fn writes_each_byte_of_a_module(rt: HostRuntime) -> Result<(), Fail> {
    let parts = parts_of(rt.alloc())?;
    let file = write_module(rt.alloc(), &parts)?;
    let bytes = expected(rt.alloc())?;
    assert_eq!(rt; file.len(), LEN);
    assert!(rt; file.as_slice() == bytes.as_slice());
    Ok(())
}

/// A generated module: how many functions it has, the number that it is from, the size of its file, where one of its
/// functions begins, and the bytes of that one. They were worked out from the text of the format.
type Guest<'a> = (u32, u64, usize, usize, &'a [u8]);

const GUESTS: [Guest; 9] = [
    // the first draw from 0 has 0xBDBF in its bits 33 to 48
    (
        1,
        0,
        4568,
        432,
        b"\x89\xF6\x8B\x84\x37\xBF\xBD\x00\x00\xC3\xCC",
    ),
    (
        8,
        7,
        4936,
        608,
        b"\x89\xF6\x8B\x84\x37\x5E\x94\x00\x00\xC3\xCC",
    ),
    // the second draw from 7 gives 320 turns
    (
        8,
        7,
        4936,
        624,
        b"\x31\xC0\x89\xC1\x89\x34\x0F\x83\xC0\x04\x3D\x00\x05\x00\x00\x72\xF1\xC3\xCC",
    ),
    (
        8,
        7,
        4936,
        656,
        b"\x83\xFE\x03\x73\x14\x89\xF0\x48\x8D\x0D\x0C\x00\x00\x00\x48\x63\x04\x81\x48\x01\xC8\xFF\xE0\xC3\xC3\xC3\xFD\xFF\xFF\xFF\xFE\xFF\xFF\xFF\xFF\xFF\xFF\xFF\xCC",
    ),
    (
        8,
        7,
        4936,
        704,
        b"\x55\x48\x89\xE5\x48\x83\xEC\x10\x48\x89\x7D\xF8\x8B\x07\x48\x8B\x7D\xF8\x89\x47\x04\xC9\xC3\xCC",
    ),
    // to the stub at 864
    (
        8,
        7,
        4936,
        736,
        b"\x53\x48\x89\xFB\xE8\x77\x00\x00\x00\x8B\x03\x5B\xC3\xCC",
    ),
    // to the function at 608
    (
        8,
        7,
        4936,
        752,
        b"\x48\x83\xEC\x08\xE8\x67\xFF\xFF\xFF\x48\x83\xC4\x08\xC3\xCC",
    ),
    // to 4120 and 4112
    (
        8,
        7,
        4936,
        768,
        b"\x48\x8B\x0D\x11\x0D\x00\x00\x89\xF0\x48\x39\xC8\x73\x1B\x48\xC1\xE0\x04\x48\x8B\x0D\xF7\x0C\x00\x00\x48\x01\xC8\x48\x8B\x10\x48\x83\xFA\x05\x75\x04\xFF\x50\x08\xC3\x0F\x0B\xCC",
    ),
    // to the stub at 848
    (
        8,
        7,
        4936,
        816,
        b"\xB8\x00\x00\x02\x00\xE8\x16\x00\x00\x00\x48\x81\xEC\x00\x00\x02\x00\x48\x89\x04\x24\x48\x81\xC4\x00\x00\x02\x00\xC3\xCC",
    ),
];

fn stands_at(file: &[u8], at: usize, bytes: &[u8]) -> bool {
    match file.get(at..) {
        Some(rest) => rest.starts_with(bytes),
        None => false,
    }
}

#[test]
fn generates_functions_of_each_kind(rt: HostRuntime) -> Result<(), Fail> {
    for (functions, number, size, at, code) in &GUESTS {
        let file = make(rt.alloc(), (*functions).min(8), *number)?;
        assert_eq!(rt; file.len(), *size);
        assert!(rt; stands_at(file.as_slice(), *at, code));
    }
    Ok(())
}
