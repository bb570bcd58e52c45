ghost use Rattle.std.specs.Prelude.{◌≡◌, ◌++◌, OnOk};
ghost use Rattle.vw_make.specs.Records.{file_header, program_header, symbol, relocation, dynamic_entry, section_header};

use crate::buffer::{put, put_u16, put_u32, put_u64};
use vw_bits::OutOfMemory;

/// The ELF header up to `e_shoff`.
const FILE_HEADER_FRONT: [u8; 40] = [
    0x7F, 0x45, 0x4C, 0x46, 2, 1, 1, 0, 0, 0, 0, 0, 0, 0, 0, 0, 3, 0, 62, 0, 1, 0, 0, 0, 0, 0, 0,
    0, 0, 0, 0, 0, 64, 0, 0, 0, 0, 0, 0, 0,
];
/// The ELF header behind `e_shoff`.
const FILE_HEADER_BACK: [u8; 16] = [0, 0, 0, 0, 64, 0, 56, 0, 3, 0, 64, 0, 3, 0, 0, 0];

/// Appends the ELF header, with `e_shoff`.
#[tactic(auto, unfolding(crate::specs::Records::file_header))]
pub fn put_file_header(out: &mut Vec<u8>, sections: u64) -> Result<(), OutOfMemory>
    ensures { OnOk result (out.new.items ≡ out.old.items ++ file_header sections) }
{
    put(out, &FILE_HEADER_FRONT)?;
    put_u64(out, sections)?;
    put(out, &FILE_HEADER_BACK)
}

/// A program header of bytes that stand at one place in the file and in memory.
#[derive(Clone, Copy)]
pub struct ProgramHeader {
    /// `p_type`.
    pub kind: u32,
    /// `p_flags`.
    pub flags: u32,
    /// `p_offset` and `p_vaddr`.
    pub at: u64,
    /// `p_filesz` and `p_memsz`.
    pub size: u64,
    /// `p_align`.
    pub align: u64,
}

/// Appends a program header.
pub fn put_program_header(out: &mut Vec<u8>, header: &ProgramHeader) -> Result<(), OutOfMemory>
    ensures { OnOk result (out.new.items
        ≡ out.old.items ++ program_header header.now.kind header.now.flags header.now.at header.now.size header.now.align) }
{
    let file_size = header.size;
    let memory_size = header.size;
    put_u32(out, header.kind)?;
    put_u32(out, header.flags)?;
    put_u64(out, header.at)?;
    put_u64(out, header.at)?;
    put_u64(out, 0)?;
    put_u64(out, file_size)?;
    put_u64(out, memory_size)?;
    put_u64(out, header.align)?;
    Ok(())
}

/// An entry of a symbol table.
#[derive(Clone, Copy)]
pub struct SymbolEntry {
    /// `st_name`: where the name begins in the string table.
    pub name: u32,
    /// `st_info`.
    pub info: u8,
    /// `st_shndx`.
    pub section: u16,
    /// `st_value`.
    pub value: u64,
    /// `st_size`.
    pub size: u64,
}

/// Appends a symbol.
pub fn put_symbol(out: &mut Vec<u8>, entry: &SymbolEntry) -> Result<(), OutOfMemory>
    ensures { OnOk result (out.new.items
        ≡ out.old.items ++ symbol entry.now.name entry.now.info entry.now.section entry.now.value entry.now.size) }
{
    put_u32(out, entry.name)?;
    put(out, &[entry.info, 0])?;
    put_u16(out, entry.section)?;
    put_u64(out, entry.value)?;
    put_u64(out, entry.size)?;
    Ok(())
}

/// Appends a null symbol (STN_UNDEF).
#[tactic(auto, unfolding(crate::specs::Records::symbol))]
pub fn put_null_symbol(out: &mut Vec<u8>) -> Result<(), OutOfMemory>
    ensures { OnOk result (out.new.items ≡ out.old.items ++ symbol 0 0 0 0 0) }
{
    put(out, &[0; 24])
}

/// An entry of a relocation table with addends.
#[derive(Clone, Copy)]
pub struct RelaEntry {
    /// `r_offset`: the address of the eight bytes.
    pub offset: u64,
    /// The type in `r_info`.
    pub kind: u32,
    /// The symbol's index in `r_info`.
    pub symbol: u32,
    /// `r_addend`.
    pub addend: u64,
}

/// Appends a relocation.
#[tactic(auto, unfolding(crate::specs::Records::relocation))]
pub fn put_relocation(out: &mut Vec<u8>, entry: &RelaEntry) -> Result<(), OutOfMemory>
    ensures { OnOk result (out.new.items
        ≡ out.old.items ++ relocation entry.now.offset entry.now.kind entry.now.symbol entry.now.addend) }
{
    put_u64(out, entry.offset)?;
    put_u32(out, entry.kind)?;
    put_u32(out, entry.symbol)?;
    put_u64(out, entry.addend)
}

/// Appends an entry of the dynamic section.
#[tactic(auto, unfolding(crate::specs::Records::dynamic_entry))]
pub fn put_dynamic_entry(out: &mut Vec<u8>, tag: u64, value: u64) -> Result<(), OutOfMemory>
    ensures { OnOk result (out.new.items ≡ out.old.items ++ dynamic_entry tag value) }
{
    put_u64(out, tag)?;
    put_u64(out, value)
}

/// A section header.
#[derive(Clone, Copy)]
pub struct SectionHeader {
    /// `sh_type`.
    pub kind: u32,
    /// `sh_offset`.
    pub offset: u64,
    /// `sh_size`.
    pub size: u64,
    /// `sh_link`.
    pub link: u32,
    /// `sh_entsize`.
    pub entry_size: u64,
}

/// Appends a section header.
#[tactic(auto, unfolding(crate::specs::Records::section_header))]
pub fn put_section_header(out: &mut Vec<u8>, header: &SectionHeader) -> Result<(), OutOfMemory>
    ensures { OnOk result (out.new.items
        ≡ out.old.items ++ section_header header.now.kind header.now.offset header.now.size header.now.link header.now.entry_size) }
{
    put_u32(out, 0)?;
    put_u32(out, header.kind)?;
    put(out, &[0; 16])?;
    put_u64(out, header.offset)?;
    put_u64(out, header.size)?;
    put_u32(out, header.link)?;
    put(out, &[0; 12])?;
    put_u64(out, header.entry_size)
}
