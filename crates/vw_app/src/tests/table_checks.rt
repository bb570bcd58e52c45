use super::checks::walked;
use super::files::{Patch, file_of};
use super::fixtures::patch;
use std::alloc::{AllocError, Global};
use std::test::Fail;
use vw_bits::List;
use vw_domain::entry_state;

/// A file of 1,024 bytes with a function at address 512 and three tables of pointers to it: a PT_LOAD with R and X of its
/// first 640 bytes at address 0, one with R and W of the others at addresses that are 4,096 greater, and a PT_DYNAMIC;
/// symbols of the function and of the list of tables; their names; the headers of three sections; and 128 bytes of code.
const HEADERS: [Patch; 50] = [
    (0, 4, 0x464c_457f),
    (4, 1, 2),
    (5, 1, 1),
    (16, 2, 3),
    (18, 2, 62),
    (32, 8, 64),
    (40, 8, 320),
    (54, 2, 56),
    (56, 2, 3),
    (58, 2, 64),
    (60, 2, 3),
    (64, 4, 1),
    (68, 4, 5),
    (96, 8, 640),
    (104, 8, 640),
    (112, 8, 4096),
    (120, 4, 1),
    (124, 4, 6),
    (128, 8, 640),
    (136, 8, 4736),
    (152, 8, 384),
    (160, 8, 384),
    (168, 8, 4096),
    (176, 4, 2),
    (180, 4, 6),
    (184, 8, 816),
    (192, 8, 4912),
    (208, 8, 64),
    (216, 8, 64),
    (224, 8, 8),
    (256, 4, 1),
    (260, 1, 0x12),
    (262, 2, 1),
    (264, 8, 512),
    (280, 4, 3),
    (284, 1, 0x11),
    (286, 2, 1),
    (288, 8, 4736),
    (296, 8, 48),
    (305, 1, 0x66),
    (307, 8, 0x6174_5f74_6563_756c),
    (315, 4, 0x7365_6c62),
    (388, 4, 2),
    (408, 8, 232),
    (416, 8, 72),
    (424, 4, 2),
    (440, 8, 24),
    (452, 4, 3),
    (472, 8, 304),
    (480, 8, 16),
];

/// The tag of an empty entry.
const EMPTY: u64 = 0xffff_ffff_ffff_ffff;

/// The words from 640 on: the address and the number of entries of each table; the tag and the pointer of each entry, with
/// the types 5, 7 and 5 in the tables' first ones; the dynamic section; and relocations, each by its place, R_X86_64_RELATIVE
/// and the address that stands there.
const WORDS: [u64; 48] = [
    0, 2, 0, 4, 0, 2, //
    5, 0, EMPTY, 0, //
    7, 0, EMPTY, 0, EMPTY, 0, EMPTY, 0, //
    5, 0, EMPTY, 0, //
    7, 4976, 8, 144, 9, 24, 0, 0, //
    4736, 8, 4784, 4752, 8, 4816, 4768, 8, 4880, //
    4792, 8, 512, 4824, 8, 512, 4888, 8, 512,
];

/// What the code of each case begins with: rsi is the distance of one of two entries, r8 the first table, r9 the third one,
/// and rax and rcx are that entry of the first and of the third.
const BEGINNING: [u8; 29] = [
    // and esi, 1; shl rsi, 4
    0x83, 0xe6, 0x01, 0x48, 0xc1, 0xe6, 0x04, //
    // mov r8, [rip + first]; mov r9, [rip + third]
    0x4c, 0x8b, 0x05, 0x72, 0x10, 0x00, 0x00, 0x4c, 0x8b, 0x0d, 0x8b, 0x10, 0x00, 0x00, //
    // lea rax, [r8 + rsi]; lea rcx, [r9 + rsi]
    0x49, 0x8d, 0x04, 0x30, 0x49, 0x8d, 0x0c, 0x31,
];

// mov rdx, [rax]
const READ: &[u8] = &[0x48, 0x8b, 0x10];

// mov rdx, [rcx]
const READ_THIRD: &[u8] = &[0x48, 0x8b, 0x11];

// mov rdx, [r8 + rsi]
const READ_INDEXED: &[u8] = &[0x49, 0x8b, 0x14, 0x30];

// mov rdx, [r9 + rsi]
const READ_THIRD_INDEXED: &[u8] = &[0x49, 0x8b, 0x14, 0x31];

// mov [rsp - 8], rdx; xor edx, edx
const SPILL: &[u8] = &[0x48, 0x89, 0x54, 0x24, 0xf8, 0x31, 0xd2];

// mov rdx, [rsp - 8]
const RELOAD: &[u8] = &[0x48, 0x8b, 0x54, 0x24, 0xf8];

// cmp rdx, 5
const TEST: &[u8] = &[0x48, 0x83, 0xfa, 0x05];

// cmp qword [rsp - 8], 5
const TEST_SPILLED: &[u8] = &[0x48, 0x83, 0x7c, 0x24, 0xf8, 0x05];

// jne l; call [rax + 8]; ret; l: ud2
const CALL: &[u8] = &[0x75, 0x04, 0xff, 0x50, 0x08, 0xc3, 0x0f, 0x0b];

// jne l; call [rcx + 8]; ret; l: ud2
const CALL_THIRD: &[u8] = &[0x75, 0x04, 0xff, 0x51, 0x08, 0xc3, 0x0f, 0x0b];

// jne l; call [r8 + rsi + 8]; ret; l: ud2
const CALL_INDEXED: &[u8] = &[0x75, 0x06, 0x41, 0xff, 0x54, 0x30, 0x08, 0xc3, 0x0f, 0x0b];

// jne l; call [r9 + rsi + 8]; ret; l: ud2
const CALL_THIRD_INDEXED: &[u8] = &[0x75, 0x06, 0x41, 0xff, 0x54, 0x31, 0x08, 0xc3, 0x0f, 0x0b];

/// The parts of the code from point 29 on, and the first point at which a check fails with the lowest number there; none
/// where no check fails as far as control goes on to the next instruction.
type Case = (&'static [&'static [u8]], Option<(u32, u8)>);

const CASES: [Case; 37] = [
    // a spilled tag that is read back, and one that is compared where it is spilled
    (&[READ, SPILL, RELOAD, TEST, CALL], None),
    (&[READ, SPILL, TEST_SPILLED, CALL], None),
    // no test; one whose other edge goes on: je; one of the entry itself, of which no copy is left: cmp qword [rax], 5
    (&[READ, SPILL, &[0xff, 0x50, 0x08, 0xc3]], Some((39, 7))),
    (
        &[
            READ,
            SPILL,
            TEST_SPILLED,
            &[0x74, 0x04, 0xff, 0x50, 0x08, 0xc3, 0x0f, 0x0b],
        ],
        Some((47, 7)),
    ),
    (&[&[0x48, 0x83, 0x38, 0x05], CALL], Some((35, 7))),
    // at a width of 32: a whole copy: cmp edx, 5; of the low half alone: cmp dword [rsp - 8], 5; mov edx, [rsp - 8];
    // mov edx, [rax]
    (&[READ, SPILL, RELOAD, &[0x83, 0xfa, 0x05], CALL], None),
    (
        &[READ, SPILL, &[0x83, 0x7c, 0x24, 0xf8, 0x05], CALL],
        Some((46, 7)),
    ),
    (
        &[READ, SPILL, &[0x8b, 0x54, 0x24, 0xf8], TEST, CALL],
        Some((49, 7)),
    ),
    (&[&[0x8b, 0x10], SPILL, RELOAD, TEST, CALL], Some((49, 7))),
    // at widths of 16 and 8: cmp dx, 5; cmp dl, 5; cmp byte [rsp - 8], 5
    (
        &[READ, SPILL, RELOAD, &[0x66, 0x83, 0xfa, 0x05], CALL],
        Some((50, 7)),
    ),
    (
        &[READ, SPILL, RELOAD, &[0x80, 0xfa, 0x05], CALL],
        Some((49, 7)),
    ),
    (
        &[READ, SPILL, &[0x80, 0x7c, 0x24, 0xf8, 0x05], CALL],
        Some((46, 7)),
    ),
    // the greatest tag: cmp edx, -2; that of an empty entry: cmp edx, -1; cmp qword [rsp - 8], -1
    (&[READ, SPILL, RELOAD, &[0x83, 0xfa, 0xfe], CALL], None),
    (
        &[READ, SPILL, RELOAD, &[0x83, 0xfa, 0xff], CALL],
        Some((49, 7)),
    ),
    (
        &[READ, SPILL, &[0x48, 0x83, 0x7c, 0x24, 0xf8, 0xff], CALL],
        Some((47, 7)),
    ),
    // four bytes of the copy are written: mov dword [rsp - 4], 0; the pointer is made anew: lea rax, [r8 + rsi]
    (
        &[
            READ,
            SPILL,
            &[0xc7, 0x44, 0x24, 0xfc, 0x00, 0x00, 0x00, 0x00],
            TEST_SPILLED,
            CALL,
        ],
        Some((55, 7)),
    ),
    (
        &[READ, SPILL, &[0x49, 0x8d, 0x04, 0x30], TEST_SPILLED, CALL],
        Some((51, 7)),
    ),
    // the call goes by a copy of the pointer: mov r11, rax; by a spilled one: mov [rsp - 16], rax; mov r11, [rsp - 16]
    (
        &[
            READ,
            SPILL,
            &[0x49, 0x89, 0xc3],
            TEST_SPILLED,
            &[0x75, 0x05, 0x41, 0xff, 0x53, 0x08, 0xc3, 0x0f, 0x0b],
        ],
        None,
    ),
    (
        &[
            READ,
            SPILL,
            &[0x48, 0x89, 0x44, 0x24, 0xf0],
            TEST_SPILLED,
            &[
                0x75, 0x0a, 0x4c, 0x8b, 0x5c, 0x24, 0xf0, 0x41, 0xff, 0x53, 0x08, 0xc3, 0x0f, 0x0b,
            ],
        ],
        None,
    ),
    // the third table by its own tag; by that of the first, of the same type; and the first by that of the third
    (&[READ_THIRD, SPILL, TEST_SPILLED, CALL_THIRD], None),
    (&[READ, SPILL, TEST_SPILLED, CALL_THIRD], Some((47, 7))),
    (&[READ_THIRD, SPILL, TEST_SPILLED, CALL], Some((47, 7))),
    // by base and index, the first table: in either order, by a copy of the index: mov r11, rsi, and by the sum: lea
    // r11, [r8 + rsi]
    (&[READ_INDEXED, SPILL, TEST_SPILLED, CALL_INDEXED], None),
    (
        &[
            READ_INDEXED,
            SPILL,
            TEST_SPILLED,
            &[0x75, 0x06, 0x42, 0xff, 0x54, 0x06, 0x08, 0xc3, 0x0f, 0x0b],
        ],
        None,
    ),
    (
        &[
            READ_INDEXED,
            SPILL,
            &[0x49, 0x89, 0xf3],
            TEST_SPILLED,
            &[0x75, 0x06, 0x43, 0xff, 0x54, 0x18, 0x08, 0xc3, 0x0f, 0x0b],
        ],
        None,
    ),
    (
        &[
            READ_INDEXED,
            SPILL,
            TEST_SPILLED,
            &[
                0x75, 0x09, 0x4d, 0x8d, 0x1c, 0x30, 0x41, 0xff, 0x53, 0x08, 0xc3, 0x0f, 0x0b,
            ],
        ],
        None,
    ),
    // the third table, by its own tag, and by that of the first, also as a sum: lea r11, [r9 + rsi]
    (
        &[READ_THIRD_INDEXED, SPILL, TEST_SPILLED, CALL_THIRD_INDEXED],
        Some((48, 7)),
    ),
    (
        &[READ_INDEXED, SPILL, TEST_SPILLED, CALL_THIRD_INDEXED],
        Some((48, 7)),
    ),
    (
        &[
            READ_INDEXED,
            SPILL,
            TEST_SPILLED,
            &[
                0x75, 0x09, 0x4d, 0x8d, 0x1c, 0x31, 0x41, 0xff, 0x53, 0x08, 0xc3, 0x0f, 0x0b,
            ],
        ],
        Some((52, 7)),
    ),
    // an index that grows behind the test: add rsi, 16
    (
        &[
            READ_INDEXED,
            SPILL,
            TEST_SPILLED,
            &[
                0x75, 0x0a, 0x48, 0x83, 0xc6, 0x10, 0x41, 0xff, 0x54, 0x30, 0x08, 0xc3, 0x0f, 0x0b,
            ],
        ],
        Some((52, 4)),
    ),
    // the second table by its own tag, 7: mov r10, [rip + second]; and edx, 3; shl rdx, 4; add rdx, r10; mov r11,
    // [rdx]; mov [rsp - 8], r11; cmp qword [rsp - 8], 7; jne l; call [rdx + 8]; its index is too great for the first:
    // mov r11, [r8 + rdx]
    (
        &[&[
            0x4c, 0x8b, 0x15, 0x6c, 0x10, 0x00, 0x00, 0x83, 0xe2, 0x03, 0x48, 0xc1, 0xe2, 0x04,
            0x4c, 0x01, 0xd2, 0x4c, 0x8b, 0x1a, 0x4c, 0x89, 0x5c, 0x24, 0xf8, 0x48, 0x83, 0x7c,
            0x24, 0xf8, 0x07, 0x75, 0x04, 0xff, 0x52, 0x08, 0xc3, 0x0f, 0x0b,
        ]],
        None,
    ),
    (
        &[&[
            0x83, 0xe2, 0x03, 0x48, 0xc1, 0xe2, 0x04, 0x4d, 0x8b, 0x1c, 0x10, 0xc3,
        ]],
        Some((36, 4)),
    ),
    // sixteen bytes of an entry: movups xmm0, [rax]; behind it: movups xmm0, [rax + 8]; a write of an entry: mov [rax
    // + 8], rdx
    (&[&[0x0f, 0x10, 0x00, 0xc3]], None),
    (&[&[0x0f, 0x10, 0x40, 0x08, 0xc3]], Some((29, 4))),
    (&[&[0x48, 0x89, 0x50, 0x08, 0xc3]], Some((29, 5))),
    // a tag that is spilled over a call, read by rbx, which the call keeps, and by rax, which it may change: push rbx;
    // sub rsp, 16; mov rbx, rax; mov rdx, [rbx]; mov [rsp], rdx; mov [rsp + 8], rdi; call; mov rdi, [rsp + 8]; cmp
    // qword [rsp], 5; jne l; call [rbx + 8]; add rsp, 16; pop rbx; ret; l: ud2
    (
        &[&[
            0x53, 0x48, 0x83, 0xec, 0x10, 0x48, 0x89, 0xc3, 0x48, 0x8b, 0x13, 0x48, 0x89, 0x14,
            0x24, 0x48, 0x89, 0x7c, 0x24, 0x08, 0xe8, 0xca, 0xff, 0xff, 0xff, 0x48, 0x8b, 0x7c,
            0x24, 0x08, 0x48, 0x83, 0x3c, 0x24, 0x05, 0x75, 0x09, 0xff, 0x53, 0x08, 0x48, 0x83,
            0xc4, 0x10, 0x5b, 0xc3, 0x0f, 0x0b,
        ]],
        None,
    ),
    (
        &[&[
            0x53, 0x48, 0x83, 0xec, 0x10, 0x48, 0x89, 0xc3, 0x48, 0x8b, 0x10, 0x48, 0x89, 0x14,
            0x24, 0x48, 0x89, 0x7c, 0x24, 0x08, 0xe8, 0xca, 0xff, 0xff, 0xff, 0x48, 0x8b, 0x7c,
            0x24, 0x08, 0x48, 0x83, 0x3c, 0x24, 0x05, 0x75, 0x09, 0xff, 0x53, 0x08, 0x48, 0x83,
            0xc4, 0x10, 0x5b, 0xc3, 0x0f, 0x0b,
        ]],
        Some((66, 7)),
    ),
];

/// The file with a function of the beginning and this code.
fn file(alloc: Global, code: &[&[u8]]) -> Result<List<u8>, AllocError> {
    let mut bytes = file_of(alloc, 1024, &[&HEADERS])?;
    for (index, word) in WORDS.iter().enumerate() {
        patch(
            &mut bytes,
            index.wrapping_mul(8).wrapping_add(640),
            &word.to_le_bytes(),
        );
    }
    patch(&mut bytes, 512, &BEGINNING);
    let mut size = BEGINNING.len();
    for part in code {
        patch(&mut bytes, size.wrapping_add(512), *part);
        size = size.wrapping_add(part.len());
    }
    patch(&mut bytes, 272, &(size as u64).to_le_bytes());
    Ok(List::from_vec(bytes))
}

#[test]
fn checks_of_calls_through_tables(rt: HostRuntime) -> Result<(), Fail> {
    for (code, failing) in CASES.iter() {
        let bytes = file(rt.alloc(), *code)?;
        let found = walked(rt.alloc(), bytes, entry_state(rt.alloc())?).ok_or("check")?;
        assert_eq!(rt; found, *failing, "{code:?}");
    }
    Ok(())
}
