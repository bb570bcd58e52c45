ghost use Rattle.std.specs.Prelude.{◌≡◌, ◌+◌, ◌*◌, ◌≤◌, ◌==◌, length, not, Some, None, if◌then◌else◌, IfOk, IfErr, OnOk};
ghost use Rattle.std.specs.List.{find, list_any};
ghost use Rattle.vw_bits.specs.Headers.{p_type, e_phnum, e_phoff, segment_at, segments_of, dyn_header_at, dynamics_of};
ghost use Rattle.vw_bits.specs.Rules.{lowest_broken, AllHold};
ghost use Rattle.vw_bits.specs.HeaderRules.{segment_fits, segments_clash, header_of, has_no_segment, first_page, last_page, first_clash, is_writable_code, segment_rules};
ghost use Rattle.vw_elf.specs.Faults.{Names};
ghost use Rattle.vw_elf.specs.FileHeaders.{IsHeaderOf};

use crate::ElfError;
use crate::faults::refuse;
use crate::header::{E_PHOFF, is_inside};
use bitflags::Flags;
use std::alloc::Global;
use vw_bits::{DynHeader, FileHeader, List, OutOfMemory, ProgramHeader, Rights, Segment};

const PT_LOAD: u32 = 1;

const PT_DYNAMIC: u32 = 2;

/// The highest address at which a segment's memory may end.
const MAX_ADDRESS: u64 = 0x8000_0000;

const PAGE_SIZE: u64 = 4096;

// The segments, and the headers of type PT_DYNAMIC, each in the order of their headers.
pub(crate) fn read_program_headers(
    alloc: Global,
    bytes: &[u8],
    header: &FileHeader,
) -> Result<(List<Segment>, List<DynHeader>), OutOfMemory>
    requires header { IsHeaderOf bytes.now header.now }
    requires table { e_phoff bytes.now + 56 * e_phnum bytes.now ≤ length bytes.now }
    ensures segments { IfOk result (λ headers. headers.0 ≡ segments_of bytes.now) }
    ensures dynamics { IfOk result (λ headers. headers.1 ≡ dynamics_of bytes.now) }
{
    let mut segments = List::new(alloc);
    let mut dynamics = List::new(alloc);
    for index in 0..header.e_phnum {
        let at = header.e_phoff + ProgramHeader::SIZE * index as u64;
        if let Some(segment) = segment_at(bytes, at) {
            segments.push(segment)?;
        }
        if let Some(dynamic) = dyn_header_at(bytes, at) {
            dynamics.push(dynamic)?;
        }
    }
    Ok((segments, dynamics))
}

#[tactic(auto, unfolding(vw_bits::specs::Headers::segment_at))]
fn segment_at(bytes: &[u8], at: u64) -> Option<Segment>
    requires { at + 56 ≤ length bytes.now }
    ensures { result ≡ (if p_type bytes.now at == 1 then Some (segment_at bytes.now at) else None) }
{
    let header = ProgramHeader::read(bytes, at);
    if header.p_type != PT_LOAD {
        return None;
    }
    Some(Segment {
        offset: header.p_offset,
        vaddr: header.p_vaddr,
        filesz: header.p_filesz,
        memsz: header.p_memsz,
        rights: Rights::from_bits_retain((header.p_flags % 8) as u8),
        header_at: at,
    })
}

#[tactic(auto, unfolding(vw_bits::specs::Headers::dyn_header_at))]
fn dyn_header_at(bytes: &[u8], at: u64) -> Option<DynHeader>
    requires { at + 56 ≤ length bytes.now }
    ensures { result ≡ (if p_type bytes.now at == 2 then Some (dyn_header_at bytes.now at) else None) }
{
    let header = ProgramHeader::read(bytes, at);
    if header.p_type != PT_DYNAMIC {
        return None;
    }
    Some(DynHeader {
        vaddr: header.p_vaddr,
        filesz: header.p_filesz,
        header_at: at,
    })
}

// Rules 10 to 12, for the segments of a file of `len` bytes.
pub(crate) fn check_segments(segments: &[Segment], len: u64) -> Result<(), ElfError>
    ensures ok { OnOk result (AllHold (segment_rules len segments.now)) }
    ensures fault { IfErr result (Names (lowest_broken 10 (segment_rules len segments.now))) }
{
    refuse(10, first_misfit(segments, len))?;
    refuse(11, first_clash(segments))?;
    refuse(12, first_writable_code(segments))
}

fn first_misfit(segments: &[Segment], len: u64) -> Option<u64>
    ensures { result ≡ header_of (find (λ s. not (segment_fits len s)) segments.now) }
{
    segments.iter().find(|s| !fits(s, len)).map(|s| s.header_at)
}

fn fits(segment: &Segment, len: u64) -> bool
    ensures { result ≡ segment_fits len segment.now }
{
    segment.filesz <= segment.memsz
        && is_inside(segment.offset, segment.filesz, len)
        && is_inside(segment.vaddr, segment.memsz, MAX_ADDRESS)
        && segment.vaddr % PAGE_SIZE == segment.offset % PAGE_SIZE
}

// The header of the first segment that does not lie above the pages of those before it, or the table's
// offset where there is no segment. There are at most 64.
fn first_clash(segments: &[Segment]) -> Option<u64>
    ensures { result ≡ (if has_no_segment segments.now then Some 32 else header_of (first_clash segments.now)) }
{
    if segments.is_empty() {
        return Some(E_PHOFF);
    }
    for (index, segment) in segments.iter().enumerate() {
        if clashes(&segments[..index], segment) {
            return Some(segment.header_at);
        }
    }
    None
}

fn clashes(earlier: &[Segment], segment: &Segment) -> bool
    ensures { result ≡ list_any (λ e. segments_clash e segment.now) earlier.now }
{
    earlier.iter().any(|e| is_clash(e, segment))
}

fn is_clash(earlier: &Segment, later: &Segment) -> bool
    ensures { result ≡ segments_clash earlier.now later.now }
{
    later.vaddr <= earlier.vaddr
        || first_page(earlier) <= last_page(later) && first_page(later) <= last_page(earlier)
}

fn first_page(segment: &Segment) -> u128
    ensures { result ≡ first_page segment.now }
{
    u128::from(segment.vaddr / PAGE_SIZE)
}

fn last_page(segment: &Segment) -> u128
    ensures { result ≡ last_page segment.now }
{
    (u128::from(segment.vaddr) + u128::from(segment.memsz.saturating_sub(1)))
        / u128::from(PAGE_SIZE)
}

fn first_writable_code(segments: &[Segment]) -> Option<u64>
    ensures { result ≡ header_of (find is_writable_code segments.now) }
{
    segments
        .iter()
        .find(|s| s.rights.contains(Rights::W) && s.rights.contains(Rights::X))
        .map(|s| s.header_at)
}
