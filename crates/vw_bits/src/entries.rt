ghost use Rattle.std.specs.Prelude.{◌≡◌, ◌+◌, ◌≤◌, length};
ghost use Rattle.vw_bits.specs.Symbols.{st_name, st_info, st_shndx, st_value, st_size};
ghost use Rattle.vw_bits.specs.DynamicTables.{d_tag, d_un, r_offset, r_info, r_addend};

use crate::fields::{u8_at, u16_at, u32_at, u64_at};

/// An entry of a symbol table of an ELF64 file (gABI, "Symbol Table"), without st_other.
#[derive(Clone, Copy, Debug, PartialEq, Eq)]
pub struct Sym {
    /// The offset of the name in the string table.
    pub st_name: u32,
    /// The type in the low four bits, the binding above.
    pub st_info: u8,
    /// The section that the symbol is defined in.
    pub st_shndx: u16,
    /// Its value, which is an address for a symbol that is defined here.
    pub st_value: u64,
    /// Its size in bytes.
    pub st_size: u64,
}

impl Sym {
    /// The size of an entry in bytes.
    pub const SIZE: u64 = 24;

    /// The entry at a file offset.
    pub fn read(bytes: &[u8], at: u64) -> Sym
        requires { at + 24 ≤ length bytes.now }
        ensures st_name { result.st_name ≡ st_name bytes.now at }
        ensures st_info { result.st_info ≡ st_info bytes.now at }
        ensures st_shndx { result.st_shndx ≡ st_shndx bytes.now at }
        ensures st_value { result.st_value ≡ st_value bytes.now at }
        ensures st_size { result.st_size ≡ st_size bytes.now at }
    {
        Sym {
            st_name: u32_at(bytes, at),
            st_info: u8_at(bytes, at + 4),
            st_shndx: u16_at(bytes, at + 6),
            st_value: u64_at(bytes, at + 8),
            st_size: u64_at(bytes, at + 16),
        }
    }
}

/// A relocation with an addend of an ELF64 file (gABI, "Relocation").
#[derive(Clone, Copy, Debug, PartialEq, Eq)]
pub struct Rela {
    /// The address that it changes, counted from the load address.
    pub r_offset: u64,
    /// ELF64_R_SYM, the symbol's index, in the high half, and ELF64_R_TYPE in the low.
    pub r_info: u64,
    /// The addend, as a word.
    pub r_addend: u64,
}

impl Rela {
    /// The size of a relocation in bytes.
    pub const SIZE: u64 = 24;

    /// The relocation at a file offset.
    pub fn read(bytes: &[u8], at: u64) -> Rela
        requires { at + 24 ≤ length bytes.now }
        ensures r_offset { result.r_offset ≡ r_offset bytes.now at }
        ensures r_info { result.r_info ≡ r_info bytes.now at }
        ensures r_addend { result.r_addend ≡ r_addend bytes.now at }
    {
        Rela {
            r_offset: u64_at(bytes, at),
            r_info: u64_at(bytes, at + 8),
            r_addend: u64_at(bytes, at + 16),
        }
    }
}

/// An entry of the dynamic section of an ELF64 file (gABI, "Dynamic Section").
#[derive(Clone, Copy, Debug, PartialEq, Eq)]
pub struct Dyn {
    /// What the entry is of.
    pub d_tag: u64,
    /// An address, a size or a number, as the tag says.
    pub d_un: u64,
}

impl Dyn {
    /// The size of an entry in bytes.
    pub const SIZE: u64 = 16;

    /// The entry at a file offset.
    pub fn read(bytes: &[u8], at: u64) -> Dyn
        requires { at + 16 ≤ length bytes.now }
        ensures d_tag { result.d_tag ≡ d_tag bytes.now at }
        ensures d_un { result.d_un ≡ d_un bytes.now at }
    {
        Dyn {
            d_tag: u64_at(bytes, at),
            d_un: u64_at(bytes, at + 8),
        }
    }
}
