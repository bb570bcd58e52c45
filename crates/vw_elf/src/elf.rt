ghost use Rattle.std.specs.Prelude.{◌≡◌, None, IfOk, IfErr, OnOk};
ghost use Rattle.vw_bits.specs.Headers.{segments_of, dynamics_of};
ghost use Rattle.vw_bits.specs.HeaderRules.{header_fault};
ghost use Rattle.vw_elf.specs.Faults.{Names};
ghost use Rattle.vw_elf.specs.SymbolSections.{symbol_sections};

use crate::faults::refuse;
use crate::header::check_header;
use crate::sections::{broken_section_table, broken_symbol_section, read_symbol_sections};
use crate::segments::{check_segments, read_program_headers};
use crate::{ElfError, SymbolSection};
use std::alloc::Global;
use vw_bits::{DynHeader, List, Segment};

/// What the headers of a file name.
#[derive(Debug, Drop)]
pub struct Elf {
    /// The program headers of type PT_LOAD, in order.
    pub segments: List<Segment>,
    /// The program headers of type PT_DYNAMIC, in order.
    pub dynamics: List<DynHeader>,
    /// The sections of type SHT_SYMTAB and SHT_DYNSYM, in order.
    pub symbols: List<SymbolSection>,
}

impl Elf {
    /// Reads the headers of a file (System V gABI, chapters "ELF Header", "Sections" and "Program
    /// Header"). Ok exactly where rules 1 to 14 hold of the bytes. A Fault names the first broken one of
    /// these rules, and the offset that it names.
    pub fn read(alloc: Global, bytes: &[u8]) -> Result<Elf, ElfError>
        ensures ok { OnOk result (header_fault bytes.now ≡ None) }
        ensures segments { IfOk result (λ elf. elf.segments ≡ segments_of bytes.now) }
        ensures dynamics { IfOk result (λ elf. elf.dynamics ≡ dynamics_of bytes.now) }
        ensures symbols { IfOk result (λ elf. elf.symbols ≡ symbol_sections bytes.now) }
        ensures fault { IfErr result (Names (header_fault bytes.now)) }
    {
        let header = check_header(bytes)?;
        let (segments, dynamics) = read_program_headers(alloc, bytes, &header).map_err(
            ElfError::Memory,
        )?;
        check_segments(segments.as_slice(), bytes.len() as u64)?;
        refuse(13, broken_section_table(bytes, &header))?;
        refuse(14, broken_symbol_section(bytes, &header))?;
        Ok(Elf {
            segments,
            dynamics,
            symbols: read_symbol_sections(alloc, bytes, &header).map_err(ElfError::Memory)?,
        })
    }
}
