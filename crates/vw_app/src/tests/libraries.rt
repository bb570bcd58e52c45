use crate::round_trip::round_trip;
use bitflags::Flags;
use std::alloc::Global;
use std::fs;
use std::test::Fail;
use vw_bits::{List, Rights, Text, low32, read_u16, read_u32, read_u64, sign_extend, sum};
use vw_insn::{Base, Insn, Mem, Place, Reg, Source, Width};
use vw_outside::{FileShelf, ReadError, read_all};

// Values of MOVSX and MOVSXD by the Intel SDM, and sums of words.
#[test]
fn words_of_64_bits(rt: HostRuntime) -> Result<(), Fail> {
    assert_eq!(rt; sum(u64::MAX, 2), 1);
    assert_eq!(rt; low32(0x1_2345_6789), 0x2345_6789);
    assert_eq!(rt; sign_extend(0x1_80, 1), 0xFFFF_FFFF_FFFF_FF80);
    assert_eq!(rt; sign_extend(0x7F, 1), 0x7F);
    assert_eq!(rt; sign_extend(0x8000, 2), 0xFFFF_FFFF_FFFF_8000);
    assert_eq!(rt; sign_extend(0x8000_0000, 4), 0xFFFF_FFFF_8000_0000);
    assert_eq!(rt; sign_extend(0x8000_0000, 8), 0x8000_0000);
    Ok(())
}

// The magic number of ELF and the machine EM_X86_64 as the gABI lays them out.
#[test]
fn fields(rt: HostRuntime) -> Result<(), Fail> {
    let header = [0x7F, 0x45, 0x4C, 0x46, 2, 1, 1, 0, 62, 0];
    assert_eq!(rt; read_u32(&header, 0).ok(), Some(0x464C_457F));
    assert_eq!(rt; read_u16(&header, 8).ok(), Some(62));
    assert_eq!(rt; read_u64(&header, 0).ok(), Some(0x0001_0102_464C_457F));
    assert_eq!(rt; read_u64(&header, 3).err().map(|short| short.at), Some(3));
    let past = read_u16(&header, u64::MAX).err();
    assert_eq!(rt; past.map(|short| short.at), Some(u64::MAX));
    Ok(())
}

#[test]
fn lists_and_text(rt: HostRuntime) -> Result<(), Fail> {
    let alloc = rt.alloc();
    let mut list = List::new(alloc);
    for item in [3u32, 5, 8] {
        list.push(item)?;
    }
    list.truncate(2);
    assert_eq!(rt; list.as_slice(), [3u32, 5].as_slice());

    let mut text = Text::new(alloc);
    text.push(b"at ")?;
    text.hex(0xBEEF, 8)?;
    text.push(b" of ")?;
    text.dec(1_048_576)?;
    text.push(b", ")?;
    text.hex(0, 1)?;
    text.hex(0x1F, 1)?;
    assert_eq!(rt; text.as_slice(), b"at 0000beef of 1048576, 01f".as_slice());
    text.truncate(2);
    assert_eq!(rt; text.as_slice(), b"at".as_slice());

    let code = Rights::from_bits_retain(5);
    assert!(rt; code.contains(Rights::X) && code.contains(Rights::R) && !code.contains(Rights::W));
    Ok(())
}

// Instructions that are encoded, followed by other bytes, and decoded; and one that nothing spells.
#[test]
fn encodes_and_decodes(rt: HostRuntime) -> Result<(), Fail> {
    let alloc = rt.alloc();
    let rax = Place::Reg(Reg::Rax);
    let memory = Place::Mem(Mem {
        base: Base::Reg(Reg::Rdi),
        index: None,
        disp: 8,
    });
    let mov = |dst, src| Insn::Mov {
        w: Width::W32,
        dst,
        src: Source::Place(src),
    };
    for (insn, length) in [
        (mov(rax, memory), Some(3)),
        (mov(memory, rax), Some(3)),
        (Insn::Ret, Some(1)),
        (mov(memory, memory), None),
    ] {
        let found = round_trip(alloc, &insn, &[0x90, 0x0F])?;
        assert_eq!(rt; found.map(|(_, length)| length), length);
    }
    Ok(())
}

// Bytes of which none is 0, and of which those that are 65,536 apart differ.
fn pattern(alloc: Global, count: u32) -> Result<Vec<u8>, Fail> {
    let mut bytes = Vec::new(alloc);
    for index in 0..count {
        bytes.push((index % 251) as u8 + 1)?;
    }
    Ok(bytes)
}

// A file of the system that is read in three pieces, the last of five bytes.
#[test]
fn system_files(rt: HostRuntime) -> Result<(), Fail> {
    let alloc = rt.alloc();
    let bytes = pattern(alloc, 131_077)?;
    fs::write(&rt, "pattern", bytes.as_slice())?;
    let mut shelf = FileShelf::new(&rt);
    let whole = read_all(alloc, &mut shelf, "pattern", 131_077);
    let cut = read_all(alloc, &mut shelf, "pattern", 131_076);
    fs::remove_file(&rt, "pattern")?;
    let same = match &whole {
        Ok(read) => read.as_slice() == bytes.as_slice(),
        Err(_) => false,
    };
    assert!(rt; same);
    assert_eq!(rt; cut.err(), Some(ReadError::TooLong));
    Ok(())
}
