ghost use Rattle.std.specs.Prelude.{◌≡◌, ◌≢◌, ◌+◌, ◌<◌, ◌≤◌, ◌^◌, not, true, false, length, Some, None, IfOk, IfErr, OnOk};
ghost use Rattle.std.specs.List.{find};
ghost use Rattle.std.specs.Option.{option_map_or};
ghost use Rattle.vw_bits.specs.Headers.{segments_of, dynamics_of};
ghost use Rattle.vw_bits.specs.Rules.{unless, lowest_broken, AllHold};
ghost use Rattle.vw_bits.specs.HeaderRules.{header_fault};
ghost use Rattle.vw_bits.specs.Bounds.{AreBounded};
ghost use Rattle.vw_dynamic.specs.Faults.{Names, Tells};
ghost use Rattle.vw_dynamic.specs.Names.{with_name};
ghost use Rattle.vw_dynamic.specs.Relas.{is_known, rela_offset};
ghost use Rattle.vw_dynamic.specs.declared.faults.DynError.TheVariants.{Fault};
ghost use Rattle.vw_dynamic.specs.Entries.{section_entries, second_header};
ghost use Rattle.vw_dynamic.specs.Directory.{directory_of};
ghost use Rattle.vw_dynamic.specs.Targets.{is_unresolved, import_of, kind_of, imports_of, relocations_of};
ghost use Rattle.vw_dynamic.specs.Dynamic.{section_rules, entry_rules, place_rules, rules_behind, dynamic_fault, imports_in, relocations_in, file_imports, file_relocations};

use crate::directory::{
    Directory, directory_of, first_misfit, first_unplaced, symbols_without_strings,
};
use crate::entries::{Entry, first_forbidden, first_repeated, read_entries};
use crate::faults::refuse;
use crate::relas::{
    R_NONE, R_RELATIVE, RelaEntry, first_misplaced, first_overlap, first_unknown, read_relas,
};
use crate::symbols::{bound_name, defined_word, strings_of, symbol_of};
use crate::{DynError, Imports};
use std::alloc::Global;
use vw_bits::{DynHeader, List, Segment, file_offset};

/// A relocation of eight bytes (gABI, "Relocation").
#[derive(Clone, Copy, Debug, PartialEq, Eq)]
pub struct Relocation {
    /// The address of the bytes, counted from the load address.
    pub place: u64,
    /// What they become.
    pub kind: RelKind,
    /// The file offset of the relocation's entry.
    pub at: u64,
}

/// What a relocation makes of its eight bytes (x86-64 psABI, "Relocation Types").
#[derive(Clone, Copy, Debug, PartialEq, Eq)]
pub enum RelKind {
    /// The load address and this number, modulo 2^64: RELATIVE, or 64, GLOB_DAT or JUMP_SLOT on a symbol
    /// that this file defines.
    Based(u64),
    /// The address of the import with this number: 64, GLOB_DAT or JUMP_SLOT on an import.
    Bound(u32),
}

/// What the dynamic section of a file gives.
#[derive(Debug, Drop)]
pub struct Dynamic {
    /// The relocations of DT_RELA and then those of DT_JMPREL, in order: one for each entry, none for type
    /// NONE, and each entry once where the tables share it in the file.
    pub relocations: List<Relocation>,
    /// The names of the imports that they bind.
    pub imports: Imports,
}

impl Dynamic {
    /// Reads the dynamic section of a file whose headers meet rules 1 to 14; `segments` and `dynamics` are
    /// those of its program headers, in order. Ok exactly where rules 15 to 26 hold of the bytes. A Fault
    /// names the first broken one of these rules, and the offset that it names.
    pub fn read(
        alloc: Global,
        bytes: &[u8],
        segments: &[Segment],
        dynamics: &[DynHeader],
    ) -> Result<Dynamic, DynError>
        requires headers { header_fault bytes.now ≡ None }
        requires segments { segments.now ≡ segments_of bytes.now }
        requires dynamics { dynamics.now ≡ dynamics_of bytes.now }
        ensures ok { OnOk result (dynamic_fault bytes.now ≡ None) }
        ensures relocations { IfOk result (λ dynamic. dynamic.relocations ≡ file_relocations bytes.now) }
        ensures imports { IfOk result (λ dynamic. dynamic.imports ≡ file_imports bytes.now) }
        ensures fault { IfErr result (Names (dynamic_fault bytes.now)) }
    {
        if dynamics.is_empty() {
            return Ok(Dynamic {
                relocations: List::new(alloc),
                imports: Imports::new(alloc),
            });
        }
        let entries = read_section(alloc, bytes, segments, &dynamics[0], &dynamics[1..])?;
        read_tables(alloc, bytes, segments, entries.as_slice())
    }
}

// Rules 15 to 17: the entries of the one dynamic section. `more` are the headers behind the first.
fn read_section(
    alloc: Global,
    bytes: &[u8],
    segments: &[Segment],
    header: &DynHeader,
    more: &[DynHeader],
) -> Result<Vec<Entry>, DynError>
    requires inside { AreBounded (length bytes.now) segments.now }
    requires small { AreBounded (2 ^ 64) segments.now }
    ensures ok { IfOk result (λ entries. section_entries bytes.now segments.now header.now ≡ Some entries.items) }
    ensures rules { OnOk result (AllHold (section_rules bytes.now segments.now header.now more.now)) }
    ensures fault { IfErr result (Names (lowest_broken 15 (section_rules bytes.now segments.now header.now more.now))) }
{
    refuse(15, first_header(more))?;
    let offset = header.header_at;
    let start = match file_offset(segments, header.vaddr, header.filesz) {
        Some(start) => start,
        None => return Err(DynError::Fault { rule: 16, offset }),
    };
    match read_entries(alloc, bytes, start, header.filesz).map_err(DynError::Memory)? {
        Some(entries) => Ok(entries),
        None => Err(DynError::Fault { rule: 17, offset }),
    }
}

fn first_header(headers: &[DynHeader]) -> Option<u64>
    ensures { result ≡ second_header headers.now }
{
    match headers.first() {
        Some(header) => Some(header.header_at),
        None => None,
    }
}

// Rules 18 to 26, for the entries of the section, and what the relocations resolve to that they name.
fn read_tables(
    alloc: Global,
    bytes: &[u8],
    segments: &[Segment],
    entries: &[Entry],
) -> Result<Dynamic, DynError>
    requires inside { AreBounded (length bytes.now) segments.now }
    requires few { length bytes.now ≤ 2 ^ 32 }
    ensures ok { OnOk result (AllHold (rules_behind bytes.now segments.now entries.now)) }
    ensures fault { IfErr result (Names (lowest_broken 18
        (rules_behind bytes.now segments.now entries.now))) }
    ensures relocations { IfOk result (λ dynamic. dynamic.relocations
        ≡ relocations_in bytes.now segments.now (directory_of entries.now)) }
    ensures imports { IfOk result (λ dynamic. dynamic.imports
        ≡ imports_in bytes.now segments.now (directory_of entries.now)) }
{
    let directory = check_entries(segments, entries)?;
    let strings = strings_of(bytes, segments, &directory);
    let found = read_relas(alloc, bytes, segments, &directory).map_err(DynError::Memory)?;
    let relas = found.as_slice();
    check_relas(alloc, segments, relas)?;
    resolve(alloc, bytes, segments, strings, directory.symtab, relas)
}

// Rules 18 to 22: what the entries name.
fn check_entries(segments: &[Segment], entries: &[Entry]) -> Result<Directory, DynError>
    requires { AreBounded (2 ^ 64) segments.now }
    ensures ok { IfOk result (λ directory. directory ≡ directory_of entries.now) }
    ensures rules { OnOk result (AllHold (entry_rules segments.now entries.now)) }
    ensures fault { IfErr result (Names (lowest_broken 18 (entry_rules segments.now entries.now))) }
{
    refuse(18, first_forbidden(entries))?;
    refuse(19, first_repeated(entries))?;
    let directory = directory_of(entries);
    refuse(20, first_misfit(&directory, entries))?;
    refuse(21, symbols_without_strings(segments, &directory, entries))?;
    refuse(22, first_unplaced(segments, &directory, entries))?;
    Ok(directory)
}

// Rules 23 to 25, each relocation by itself and no two of one byte.
fn check_relas(alloc: Global, segments: &[Segment], relas: &[RelaEntry]) -> Result<(), DynError>
    ensures rules { OnOk result (AllHold (place_rules segments.now relas.now)) }
    ensures fault { IfErr result (Names (lowest_broken 23 (place_rules segments.now relas.now))) }
{
    refuse(23, first_unknown(relas))?;
    refuse(24, first_misplaced(segments, relas))?;
    refuse(25, first_overlap(alloc, relas).map_err(DynError::Memory)?)
}

// What each relocation resolves to, in order, and none for type NONE, with the names of the imports, numbered by the
// first relocations on them; or the first relocation that breaks rule 26.
fn resolve(
    alloc: Global,
    bytes: &[u8],
    segments: &[Segment],
    strings: &[u8],
    symtab: Option<u64>,
    relas: &[RelaEntry],
) -> Result<Dynamic, DynError>
    requires inside { AreBounded (length bytes.now) segments.now }
    requires small { AreBounded (2 ^ 64) segments.now }
    requires few { length relas.now + 1 < 2 ^ 32 }
    requires known { find (λ r. not (is_known r)) relas.now ≡ None }
    ensures ok { OnOk result
        (find (is_unresolved bytes.now segments.now strings.now symtab) relas.now ≡ None) }
    ensures fault { IfErr result (Tells 26 (rela_offset
        (find (is_unresolved bytes.now segments.now strings.now symtab) relas.now))) }
    ensures imports { IfOk result (λ dynamic. dynamic.imports
        ≡ imports_of bytes.now segments.now strings.now symtab relas.now) }
    ensures relocations { IfOk result (λ dynamic. dynamic.relocations
        ≡ relocations_of bytes.now segments.now strings.now symtab
        (imports_of bytes.now segments.now strings.now symtab relas.now) relas.now) }
{
    let mut imports = Imports::new(alloc);
    let mut relocations = List::new(alloc);
    for rela in relas {
        if rela.kind != R_NONE {
            let kind = kind_of(alloc, bytes, segments, strings, symtab, rela, &mut imports)?;
            let relocation = Relocation {
                place: rela.place,
                kind,
                at: rela.at,
            };
            relocations.push(relocation).map_err(DynError::Memory)?;
        }
    }
    Ok(Dynamic {
        relocations,
        imports,
    })
}

// What a relocation resolves to. The name of an import is added where it is new. A fault where rule 26 is broken.
fn kind_of(
    alloc: Global,
    bytes: &[u8],
    segments: &[Segment],
    strings: &[u8],
    symtab: Option<u64>,
    rela: &RelaEntry,
    imports: &mut Imports,
) -> Result<RelKind, DynError>
    requires inside { AreBounded (length bytes.now) segments.now }
    requires small { AreBounded (2 ^ 64) segments.now }
    requires few { length imports.old + 1 < 2 ^ 32 }
    requires known { is_known rela.now ≡ true }
    requires some { rela.now.kind ≢ 0 }
    ensures ok { OnOk result (is_unresolved bytes.now segments.now strings.now symtab rela.now ≡ false) }
    ensures fault { IfErr result (Tells 26 (unless
        (not (is_unresolved bytes.now segments.now strings.now symtab rela.now)) rela.now.at)) }
    ensures imports { OnOk result (imports.new ≡ option_map_or (with_name imports.old)
        (import_of bytes.now segments.now strings.now symtab rela.now) imports.old) }
    ensures kind { IfOk result (λ kind. kind
        ≡ kind_of bytes.now segments.now strings.now symtab imports.new rela.now) }
{
    if rela.kind == R_RELATIVE {
        return Ok(RelKind::Based(rela.addend));
    }
    let Some(symbol) = symbol_of(bytes, segments, symtab, rela.symbol) else {
        return Err(unresolved(rela));
    };
    if symbol.is_import() {
        let Some(name) = bound_name(strings, rela, &symbol) else {
            return Err(unresolved(rela));
        };
        let number = imports.add(alloc, name).map_err(DynError::Memory)?;
        return Ok(RelKind::Bound(number));
    }
    let Some(word) = defined_word(rela, &symbol) else {
        return Err(unresolved(rela));
    };
    Ok(RelKind::Based(word))
}

fn unresolved(rela: &RelaEntry) -> DynError
    ensures { result ≡ Fault 26 rela.now.at }
{
    DynError::Fault {
        rule: 26,
        offset: rela.at,
    }
}
