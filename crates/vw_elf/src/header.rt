ghost use Rattle.std.specs.Prelude.{◌≡◌, ◌+◌, ◌*◌, ◌≤◌, ◌&&◌, nat_le, length, IfOk, IfErr, OnOk};
ghost use Rattle.vw_bits.specs.Headers.{e_phnum, e_phoff};
ghost use Rattle.vw_bits.specs.Rules.{lowest_broken, AllHold};
ghost use Rattle.vw_bits.specs.HeaderRules.{first_difference, header_rules};
ghost use Rattle.vw_elf.specs.Faults.{Names};
ghost use Rattle.vw_elf.specs.FileHeaders.{IsHeaderOf};

use crate::ElfError;
use crate::faults::{refuse, unless};
use vw_bits::{FileHeader, ProgramHeader};

/// The greatest length of a module, in bytes.
const MAX_LEN: u64 = 67_108_864;

const MAX_PROGRAM_HEADERS: u16 = 64;

/// EI_MAG0 to EI_MAG3, and behind them EI_CLASS (ELFCLASS64) and EI_DATA (ELFDATA2LSB).
const MAGIC: [u8; 4] = [0x7f, 0x45, 0x4c, 0x46];

const CLASS_AND_DATA: [u8; 2] = [2, 1];

const ET_DYN: u16 = 3;

const EM_X86_64: u16 = 62;

/// Where the header has the fields that rules speak of.
const E_TYPE: u64 = 16;

const E_MACHINE: u64 = 18;

pub(crate) const E_PHOFF: u64 = 32;

pub(crate) const E_SHOFF: u64 = 40;

const E_PHENTSIZE: u64 = 54;

const E_PHNUM: u64 = 56;

pub(crate) const E_SHENTSIZE: u64 = 58;

// Rules 1 to 9: the length and the header, which is read.
pub(crate) fn check_header(bytes: &[u8]) -> Result<FileHeader, ElfError>
    ensures header { IfOk result (IsHeaderOf bytes.now) }
    ensures ok { OnOk result (AllHold (header_rules bytes.now)) }
    ensures fault { IfErr result (Names (lowest_broken 1 (header_rules bytes.now))) }
{
    let len = bytes.len() as u64;
    refuse(1, unless(len <= MAX_LEN, MAX_LEN))?;
    refuse(2, unless(FileHeader::SIZE <= len, len))?;
    refuse(3, first_difference(bytes, 0, &MAGIC))?;
    refuse(4, first_difference(bytes, 4, &CLASS_AND_DATA))?;
    let header = FileHeader::read(bytes);
    refuse(5, unless(header.e_type == ET_DYN, E_TYPE))?;
    refuse(6, unless(header.e_machine == EM_X86_64, E_MACHINE))?;
    let is_size = header.e_phentsize as u64 == ProgramHeader::SIZE;
    refuse(7, unless(is_size, E_PHENTSIZE))?;
    let count = header.e_phnum;
    refuse(8, unless(is_header_count(count), E_PHNUM))?;
    let is_inside = table_is_inside(header.e_phoff, ProgramHeader::SIZE, count, len);
    refuse(9, unless(is_inside, E_PHOFF))?;
    Ok(header)
}

fn is_header_count(count: u16) -> bool
    ensures { result ≡ (nat_le 1 count && nat_le count 64) }
{
    1 <= count && count <= MAX_PROGRAM_HEADERS
}

// Whether `count` items of `size` bytes from `offset` on end at or before `len`.
pub(crate) fn table_is_inside(offset: u64, size: u64, count: u16, len: u64) -> bool
    requires { size ≤ 64 }
    ensures { result ≡ nat_le (offset + size * count) len }
{
    is_inside(offset, size * count as u64, len)
}

// Whether `size` bytes from `offset` on end at or before `len`.
pub(crate) fn is_inside(offset: u64, size: u64, len: u64) -> bool
    ensures { result ≡ nat_le (offset + size) len }
{
    size <= len && offset <= len - size
}

// The offset of the first byte that differs from the expected ones, which begin at `from`.
fn first_difference(bytes: &[u8], from: usize, expected: &[u8]) -> Option<u64>
    requires { from + length expected.now ≤ length bytes.now }
    ensures { result ≡ first_difference bytes.now from expected.now }
{
    for (index, byte) in expected.iter().enumerate() {
        if bytes[from + index] != *byte {
            return Some((from + index) as u64);
        }
    }
    None
}
