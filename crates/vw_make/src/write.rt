ghost use Rattle.std.specs.Prelude.{◌≡◌, ◌+◌, ◌≤◌, ◌<◌, ◌^◌, ◌++◌, length, IfOk, OnOk};
ghost use Rattle.vw_make.specs.Bounds.{MeetsBounds};
ghost use Rattle.vw_make.specs.Layout.{file_size};
ghost use Rattle.vw_make.specs.Module.{program_headers, section_headers, front, with_text, with_dynamic, file_of, module_bytes};
ghost use Rattle.vw_make.specs.Plan.{IsPlan};

use crate::buffer::fill_to;
use crate::layout::Layout;
use crate::parts::Parts;
use crate::plan::{Plan, make_plan};
use crate::records::{
    ProgramHeader, SectionHeader, put_file_header, put_program_header, put_section_header,
};
use crate::relocations::put_relocations;
use crate::sizes::Sizes;
use crate::strings::{put_dynamic_strings, put_symbol_strings};
use crate::symbols::{put_dynamic_symbols, put_symbols};
use crate::tables::{
    DYNAMIC_SIZE, put_content, put_dynamic_section, put_pairs, put_slots, put_tables,
};
use crate::text::put_text;
use std::alloc::Global;
use vw_bits::{List, OutOfMemory};

const PT_LOAD: u32 = 1;

const PT_DYNAMIC: u32 = 2;
/// `p_flags`: PF_R and PF_X.
const READ_EXECUTE: u32 = 5;
/// `p_flags`: PF_R and PF_W.
const READ_WRITE: u32 = 6;
/// `p_align` of what is loaded.
const PAGE: u64 = 4096;

const SHT_NULL: u32 = 0;

const SHT_SYMTAB: u32 = 2;

const SHT_STRTAB: u32 = 3;

/// The file of the module with these parts: an ELF64 shared object for x86-64 in which every address is
/// the offset of the same byte (System V gABI, "Object Files" and "Program Loading and Dynamic Linking").
/// Time and memory are linear in the size of the file.
///
/// The parts are to meet these bounds: numbers name functions, imports and bytes that are there; the four
/// bytes of a fix lie in its code and the eight bytes of a bind in the content; no two fixes of one
/// function and no two binds share a byte; at most 65,536 functions of at most 1,048,576 bytes, 65,536
/// different imports, names of at most 1,024 bytes, 64 tables of at most 65,536 entries; and a file of at
/// most 67,108,864 bytes.
///
/// The only error is want of memory.
pub fn write_module(alloc: Global, parts: &Parts) -> Result<List<u8>, OutOfMemory>
    requires { MeetsBounds parts.now }
    ensures bytes { IfOk result (λ file. file ≡ module_bytes parts.now) }
    ensures size { IfOk result (λ file. length file ≡ file_size parts.now) }
{
    let plan = make_plan(alloc, parts)?;
    let file = whole_file(alloc, &plan)?;
    Ok(List::from_vec(file))
}

#[tactic(auto, unfolding(crate::specs::Module::file_of))]
fn whole_file(alloc: Global, plan: &Plan) -> Result<Vec<u8>, OutOfMemory>
    requires { IsPlan plan.now }
    ensures { IfOk result (λ file. file.items ≡ file_of plan.now.parts.now plan.now.sizes plan.now.layout) }
{
    let mut out = file_with_dynamic(alloc, plan)?;
    put_symbols(&mut out, plan)?;
    put_symbol_strings(&mut out, plan)?;
    fill_to(&mut out, plan.layout.sections)?;
    put_section_headers(&mut out, &plan.sizes, &plan.layout)?;
    Ok(out)
}

// The file up to the end of the dynamic section.
#[tactic(auto, unfolding(crate::specs::Module::with_dynamic))]
fn file_with_dynamic(alloc: Global, plan: &Plan) -> Result<Vec<u8>, OutOfMemory>
    requires { IsPlan plan.now }
    ensures { IfOk result (λ file. file.items
        ≡ with_dynamic plan.now.parts.now plan.now.sizes plan.now.layout) }
{
    let mut out = file_with_text(alloc, plan)?;
    fill_to(&mut out, plan.layout.slots)?;
    put_slots(&mut out, plan)?;
    put_pairs(&mut out, plan.parts.tables.as_slice())?;
    put_tables(&mut out, plan.parts.tables.as_slice())?;
    put_content(&mut out, plan.parts)?;
    put_dynamic_section(&mut out, &plan.sizes, &plan.layout)?;
    Ok(out)
}

// The file up to the end of the text.
#[tactic(auto, unfolding(crate::specs::Module::with_text))]
fn file_with_text(alloc: Global, plan: &Plan) -> Result<Vec<u8>, OutOfMemory>
    requires { IsPlan plan.now }
    ensures { IfOk result (λ file. file.items ≡ with_text plan.now.parts.now plan.now.layout) }
{
    let mut out = file_front(alloc, plan)?;
    fill_to(&mut out, plan.layout.relocations)?;
    put_relocations(&mut out, plan)?;
    fill_to(&mut out, plan.layout.text)?;
    put_text(&mut out, plan)?;
    Ok(out)
}

// The file up to the end of the dynamic symbols' strings.
#[tactic(auto, unfolding(crate::specs::Module::front))]
fn file_front(alloc: Global, plan: &Plan) -> Result<Vec<u8>, OutOfMemory>
    requires { IsPlan plan.now }
    ensures { IfOk result (λ file. file.items ≡ front plan.now.parts.now plan.now.layout) }
{
    let imports = plan.parts.imports.as_slice();
    let mut out = Vec::new(alloc);
    put_file_header(&mut out, plan.layout.sections)?;
    put_program_headers(&mut out, &plan.layout)?;
    put_dynamic_symbols(&mut out, imports)?;
    put_dynamic_strings(&mut out, imports)?;
    Ok(out)
}

#[tactic(auto, unfolding(crate::specs::Module::program_headers))]
fn put_program_headers(out: &mut Vec<u8>, layout: &Layout) -> Result<(), OutOfMemory>
    requires { layout.now.slots ≤ layout.now.dynamic × layout.now.dynamic < 2 ^ 40 }
    ensures { OnOk result (out.new.items ≡ out.old.items ++ program_headers layout.now) }
{
    let text = ProgramHeader {
        kind: PT_LOAD,
        flags: READ_EXECUTE,
        at: 0,
        size: layout.text_end,
        align: PAGE,
    };
    let data = ProgramHeader {
        kind: PT_LOAD,
        flags: READ_WRITE,
        at: layout.slots,
        size: layout.dynamic + DYNAMIC_SIZE - layout.slots,
        align: PAGE,
    };
    let dynamic = ProgramHeader {
        kind: PT_DYNAMIC,
        flags: READ_WRITE,
        at: layout.dynamic,
        size: DYNAMIC_SIZE,
        align: 8,
    };
    put_program_header(out, &text)?;
    put_program_header(out, &data)?;
    put_program_header(out, &dynamic)
}

#[tactic(auto, unfolding(crate::specs::Module::section_headers))]
fn put_section_headers(out: &mut Vec<u8>, size: &Sizes, layout: &Layout) -> Result<(), OutOfMemory>
    ensures { OnOk result (out.new.items ≡ out.old.items ++ section_headers size.now layout.now) }
{
    let null = SectionHeader {
        kind: SHT_NULL,
        offset: 0,
        size: 0,
        link: 0,
        entry_size: 0,
    };
    let symbols = SectionHeader {
        kind: SHT_SYMTAB,
        offset: layout.symbols,
        size: size.symbols,
        link: 2,
        entry_size: 24,
    };
    let strings = SectionHeader {
        kind: SHT_STRTAB,
        offset: layout.strings,
        size: size.strings,
        link: 0,
        entry_size: 0,
    };
    put_section_header(out, &null)?;
    put_section_header(out, &symbols)?;
    put_section_header(out, &strings)
}
