ghost use Rattle.std.specs.Prelude.{◌≡◌, ◌+◌, ◌≤◌, length};
ghost use Rattle.vw_bits.specs.Headers.{e_type, e_machine, e_phoff, e_shoff, e_phentsize, e_phnum, e_shentsize, e_shnum, p_type, p_flags, p_offset, p_vaddr, p_filesz, p_memsz, sh_type, sh_offset, sh_size, sh_link, sh_entsize};

use crate::fields::{u16_at, u32_at, u64_at};

/// The header of an ELF64 file whose data encoding is ELFDATA2LSB (gABI, "ELF Header"), without e_ident,
/// e_version, e_entry, e_flags, e_ehsize and e_shstrndx.
#[derive(Clone, Copy, Debug, PartialEq, Eq)]
pub struct FileHeader {
    /// The type of the file.
    pub e_type: u16,
    /// The architecture.
    pub e_machine: u16,
    /// The file offset of the program headers.
    pub e_phoff: u64,
    /// The file offset of the section headers.
    pub e_shoff: u64,
    /// The size of a program header in bytes.
    pub e_phentsize: u16,
    /// How many program headers there are.
    pub e_phnum: u16,
    /// The size of a section header in bytes.
    pub e_shentsize: u16,
    /// How many section headers there are.
    pub e_shnum: u16,
}

impl FileHeader {
    /// The size of the header in bytes.
    pub const SIZE: u64 = 64;

    /// The header of a file, its first 64 bytes.
    pub fn read(bytes: &[u8]) -> FileHeader
        requires { 64 ≤ length bytes.now }
        ensures e_type { result.e_type ≡ e_type bytes.now }
        ensures e_machine { result.e_machine ≡ e_machine bytes.now }
        ensures e_phoff { result.e_phoff ≡ e_phoff bytes.now }
        ensures e_shoff { result.e_shoff ≡ e_shoff bytes.now }
        ensures e_phentsize { result.e_phentsize ≡ e_phentsize bytes.now }
        ensures e_phnum { result.e_phnum ≡ e_phnum bytes.now }
        ensures e_shentsize { result.e_shentsize ≡ e_shentsize bytes.now }
        ensures e_shnum { result.e_shnum ≡ e_shnum bytes.now }
    {
        FileHeader {
            e_type: u16_at(bytes, 16),
            e_machine: u16_at(bytes, 18),
            e_phoff: u64_at(bytes, 32),
            e_shoff: u64_at(bytes, 40),
            e_phentsize: u16_at(bytes, 54),
            e_phnum: u16_at(bytes, 56),
            e_shentsize: u16_at(bytes, 58),
            e_shnum: u16_at(bytes, 60),
        }
    }
}

/// A program header of an ELF64 file (gABI, "Program Header"), without p_paddr and p_align.
#[derive(Clone, Copy, Debug, PartialEq, Eq)]
pub struct ProgramHeader {
    /// What it describes.
    pub p_type: u32,
    /// What the segment's bytes may be used for.
    pub p_flags: u32,
    /// Where the segment's bytes begin in the file.
    pub p_offset: u64,
    /// Where they begin in memory, counted from the load address.
    pub p_vaddr: u64,
    /// How many bytes the file holds.
    pub p_filesz: u64,
    /// How many bytes there are in memory.
    pub p_memsz: u64,
}

impl ProgramHeader {
    /// The size of a program header in bytes.
    pub const SIZE: u64 = 56;

    /// The program header at a file offset.
    pub fn read(bytes: &[u8], at: u64) -> ProgramHeader
        requires { at + 56 ≤ length bytes.now }
        ensures p_type { result.p_type ≡ p_type bytes.now at }
        ensures p_flags { result.p_flags ≡ p_flags bytes.now at }
        ensures p_offset { result.p_offset ≡ p_offset bytes.now at }
        ensures p_vaddr { result.p_vaddr ≡ p_vaddr bytes.now at }
        ensures p_filesz { result.p_filesz ≡ p_filesz bytes.now at }
        ensures p_memsz { result.p_memsz ≡ p_memsz bytes.now at }
    {
        ProgramHeader {
            p_type: u32_at(bytes, at),
            p_flags: u32_at(bytes, at + 4),
            p_offset: u64_at(bytes, at + 8),
            p_vaddr: u64_at(bytes, at + 16),
            p_filesz: u64_at(bytes, at + 32),
            p_memsz: u64_at(bytes, at + 40),
        }
    }
}

/// A section header of an ELF64 file (gABI, "Section Header"), without sh_name, sh_flags, sh_addr, sh_info
/// and sh_addralign.
#[derive(Clone, Copy, Debug, PartialEq, Eq)]
pub struct SectionHeader {
    /// What the section holds.
    pub sh_type: u32,
    /// Where its bytes begin in the file.
    pub sh_offset: u64,
    /// How many there are.
    pub sh_size: u64,
    /// The index of another section header, that of the string table for a section of symbols.
    pub sh_link: u32,
    /// The size of an entry in bytes, for a section of entries of one size.
    pub sh_entsize: u64,
}

impl SectionHeader {
    /// The size of a section header in bytes.
    pub const SIZE: u64 = 64;

    /// The section header at a file offset.
    pub fn read(bytes: &[u8], at: u64) -> SectionHeader
        requires { at + 64 ≤ length bytes.now }
        ensures sh_type { result.sh_type ≡ sh_type bytes.now at }
        ensures sh_offset { result.sh_offset ≡ sh_offset bytes.now at }
        ensures sh_size { result.sh_size ≡ sh_size bytes.now at }
        ensures sh_link { result.sh_link ≡ sh_link bytes.now at }
        ensures sh_entsize { result.sh_entsize ≡ sh_entsize bytes.now at }
    {
        SectionHeader {
            sh_type: u32_at(bytes, at + 4),
            sh_offset: u64_at(bytes, at + 24),
            sh_size: u64_at(bytes, at + 32),
            sh_link: u32_at(bytes, at + 40),
            sh_entsize: u64_at(bytes, at + 56),
        }
    }
}
