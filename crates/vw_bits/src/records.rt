ghost use Rattle.std.specs.Prelude.{◌≡◌, ◌+◌, ◌≤◌, length};
ghost use Rattle.vw_bits.specs.Symbols.{symbol_at, symbol_type, is_defined, is_import};

use crate::{Rights, Sym};

/// A loadable segment of a file: a program header of type PT_LOAD (gABI, "Program Header").
#[derive(Clone, Copy, Debug, PartialEq, Eq)]
pub struct Segment {
    /// `p_offset`: where the segment's bytes begin in the file.
    pub offset: u64,
    /// `p_vaddr`: where they begin in memory, counted from the load address.
    pub vaddr: u64,
    /// `p_filesz`: how many bytes the file holds.
    pub filesz: u64,
    /// `p_memsz`: how many bytes there are in memory; those past `filesz` are zero.
    pub memsz: u64,
    /// `p_flags`.
    pub rights: Rights,
    /// The file offset of the program header.
    pub header_at: u64,
}

/// A program header of type PT_DYNAMIC (gABI, "Dynamic Section").
#[derive(Clone, Copy, Debug, PartialEq, Eq)]
pub struct DynHeader {
    /// `p_vaddr`: where the dynamic section begins in memory, counted from the load address.
    pub vaddr: u64,
    /// `p_filesz`: its size in bytes.
    pub filesz: u64,
    /// The file offset of the program header.
    pub header_at: u64,
}

/// An entry of a symbol table (gABI, "Symbol Table").
#[derive(Clone, Copy, Debug, PartialEq, Eq)]
pub struct Symbol {
    /// `st_name`: the offset of the name in the string table.
    pub name: u32,
    /// `st_info`: the type in the low four bits, the binding above.
    pub info: u8,
    /// `st_shndx`: the section that the symbol is defined in, 0 where it is an import.
    pub shndx: u16,
    /// `st_value`.
    pub value: u64,
    /// `st_size`: in bytes.
    pub size: u64,
    /// The file offset of the entry.
    pub at: u64,
}

const SHN_UNDEF: u16 = 0;

const SHN_LORESERVE: u16 = 0xff00;

impl Symbol {
    /// The symbol whose entry is at a file offset.
    #[tactic(auto, unfolding(crate::specs::Symbols::symbol_at))]
    pub fn read(bytes: &[u8], at: u64) -> Symbol
        requires { at + 24 ≤ length bytes.now }
        ensures { result ≡ symbol_at bytes.now at }
    {
        let entry = Sym::read(bytes, at);
        Symbol {
            name: entry.st_name,
            info: entry.st_info,
            shndx: entry.st_shndx,
            value: entry.st_value,
            size: entry.st_size,
            at,
        }
    }

    /// ELF64_ST_TYPE.
    pub fn symbol_type(&self) -> u8
        ensures { result ≡ symbol_type self.now }
    {
        self.info % 16
    }

    /// Whether the symbol is an import: `st_shndx` is SHN_UNDEF.
    pub fn is_import(&self) -> bool
        ensures { result ≡ is_import self.now }
    {
        self.shndx == SHN_UNDEF
    }

    /// Whether the symbol is defined in this file: `st_shndx` is neither SHN_UNDEF nor at or above
    /// SHN_LORESERVE.
    pub fn is_defined(&self) -> bool
        ensures { result ≡ is_defined self.now }
    {
        self.shndx != SHN_UNDEF && self.shndx < SHN_LORESERVE
    }
}
