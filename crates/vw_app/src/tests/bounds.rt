use std::alloc::Global;
use std::test::Fail;
use vw_bits::OutOfMemory;
use vw_rows::as_bytes;
use vw_state::bounds_of;

/// Code, numbers that are among its bounds, and numbers that are not.
type Case = (&'static [u8], &'static [u64], &'static [u64]);

const CASES: [Case; 9] = [
    // no code: the powers alone
    (
        &[],
        &[1, 2, 0x1_0000_0000, 0x2_0000_0000],
        &[0, 3, 0x1_0000_0001, 0x4_0000_0000],
    ),
    // cmp eax, 100
    (&[0x83, 0xf8, 100], &[100, 101], &[99, 102]),
    // and ecx, 1000
    (&[0x81, 0xe1, 0xe8, 3, 0, 0], &[1000, 1001], &[999, 1002]),
    // mov eax, 7 and, with a byte before it, at an odd place
    (&[0xb8, 7, 0, 0, 0], &[7], &[6, 9]),
    (&[0x06, 0xb8, 7, 0, 0, 0], &[7], &[6, 9]),
    // cmp al, -127: of eight bits
    (&[0x3c, 0x81], &[129, 130], &[127, 131]),
    // cmp eax, -1 and cmp eax, -2: of 32 bits, and the next numbers
    (&[0x83, 0xf8, 0xff], &[0xffff_ffff], &[0xffff_fffe]),
    (
        &[0x83, 0xf8, 0xfe],
        &[0xffff_fffe, 0xffff_ffff],
        &[254, 255],
    ),
    // add eax, 100
    (&[0x83, 0xc0, 100], &[], &[100, 101]),
];

/// Whether the numbers are bounds of the code exactly where they are to be; in a module without tables.
fn bound(alloc: Global, code: &[u8], numbers: &[u64], wanted: bool) -> Result<bool, OutOfMemory> {
    let bounds = bounds_of(alloc, as_bytes(code), &[])?;
    Ok(numbers.iter().all(|k| bounds.contains(*k) == wanted))
}

#[test]
fn bounds_of_instructions(rt: HostRuntime) -> Result<(), Fail> {
    for (code, has, lacks) in CASES.iter() {
        assert!(rt;
            bound(rt.alloc(), *code, *has, true)?,
            "{code:?} has {has:?}"
        );
        assert!(rt;
            bound(rt.alloc(), *code, *lacks, false)?,
            "{code:?} lacks {lacks:?}"
        );
    }
    Ok(())
}

/// The numbers of entries of a module's tables, from 1 on.
#[test]
fn bounds_of_tables(rt: HostRuntime) -> Result<(), Fail> {
    let lengths: [u64; 4] = [0, 3, 65536, 3];
    let bounds = bounds_of(rt.alloc(), as_bytes(&[]), &lengths)?;
    assert!(rt; bounds.contains(3) && !bounds.contains(0) && !bounds.contains(4095));
    Ok(())
}
