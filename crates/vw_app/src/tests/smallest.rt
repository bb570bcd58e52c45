ghost use Rattle.std.specs.Prelude.{◌≤◌, length};

use std::alloc::Global;
use std::test::Fail;

/// The ELF header up to `e_shoff`: ET_DYN, EM_X86_64, program headers at 64.
const FILE_HEADER_FRONT: [u8; 40] = [
    0x7F, 0x45, 0x4C, 0x46, 2, 1, 1, 0, 0, 0, 0, 0, 0, 0, 0, 0, 3, 0, 62, 0, 1, 0, 0, 0, 0, 0, 0,
    0, 0, 0, 0, 0, 64, 0, 0, 0, 0, 0, 0, 0,
];
/// The ELF header behind `e_shoff`: one program header, three section headers.
const FILE_HEADER_BACK: [u8; 16] = [0, 0, 0, 0, 64, 0, 56, 0, 1, 0, 64, 0, 3, 0, 0, 0];
/// The program header up to `p_filesz`: PT_LOAD, read and executed, from 0 at address 0.
const SEGMENT_FRONT: [u8; 32] = [
    1, 0, 0, 0, 5, 0, 0, 0, 0, 0, 0, 0, 0, 0, 0, 0, 0, 0, 0, 0, 0, 0, 0, 0, 0, 0, 0, 0, 0, 0, 0, 0,
];
/// `p_align`.
const SEGMENT_BACK: [u8; 8] = [0, 16, 0, 0, 0, 0, 0, 0];
/// A null symbol, and the symbol of the function, at address 120, up to `st_size`.
const SYMBOLS_FRONT: [u8; 40] = [
    0, 0, 0, 0, 0, 0, 0, 0, 0, 0, 0, 0, 0, 0, 0, 0, 0, 0, 0, 0, 0, 0, 0, 0, 1, 0, 0, 0, 0x12, 0, 1,
    0, 120, 0, 0, 0, 0, 0, 0, 0,
];
/// The string table with the name `f`, and padding.
const STRINGS: [u8; 8] = [0, 0x66, 0, 0, 0, 0, 0, 0];

/// The file of the smallest module: one function `f` of this code from byte 120 on, its symbol and a
/// symbol table (System V gABI, "ELF Header", "Program Header", "Symbol Table", "Sections").
pub fn smallest_module(alloc: Global, code: &[u8]) -> Result<Vec<u8>, Fail>
    requires { length code.now ≤ 1048576 }
{
    let size = code.len() as u64;
    let end = 120 + size;
    let symbols = (end + 7) / 8 * 8;
    let mut file = Vec::new(alloc);
    file.extend_from_slice(&FILE_HEADER_FRONT)?;
    file.extend_from_slice(&(symbols + 56).to_le_bytes())?;
    file.extend_from_slice(&FILE_HEADER_BACK)?;
    file.extend_from_slice(&SEGMENT_FRONT)?;
    file.extend_from_slice(&end.to_le_bytes())?;
    file.extend_from_slice(&end.to_le_bytes())?;
    file.extend_from_slice(&SEGMENT_BACK)?;
    file.extend_from_slice(code)?;
    push_tables(&mut file, size, end, symbols)?;
    Ok(file)
}

fn push_tables(file: &mut Vec<u8>, size: u64, end: u64, symbols: u64) -> Result<(), Fail>
    requires order { end ≤ symbols }
    requires near { symbols ≤ 2097152 }
{
    push_zeros(file, symbols - end)?;
    file.extend_from_slice(&SYMBOLS_FRONT)?;
    file.extend_from_slice(&size.to_le_bytes())?;
    file.extend_from_slice(&STRINGS)?;
    push_zeros(file, 64)?;
    push_section(file, [2, symbols, 48, 2, 24])?;
    push_section(file, [3, symbols + 48, 3, 0, 0])
}

fn push_zeros(file: &mut Vec<u8>, count: u64) -> Result<(), Fail> {
    for _ in 0..count {
        file.push(0)?;
    }
    Ok(())
}

// A section header of this sh_type, sh_offset, sh_size, sh_link and sh_entsize.
fn push_section(file: &mut Vec<u8>, fields: [u64; 5]) -> Result<(), Fail> {
    let [kind, offset, size, link, entry_size] = fields;
    for word in [kind << 32, 0, 0, offset, size, link, 0, entry_size] {
        file.extend_from_slice(&word.to_le_bytes())?;
    }
    Ok(())
}
