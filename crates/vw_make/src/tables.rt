ghost use Rattle.std.specs.Prelude.{◌≡◌, ◌++◌, OnOk};
ghost use Rattle.vw_make.specs.Bounds.{MeetsBounds};
ghost use Rattle.vw_make.specs.Plan.{IsPlan};
ghost use Rattle.vw_make.specs.Tables.{slots, pairs, entry, table, tables, padded_content, dynamic_section};

use crate::buffer::{pad, put, put_u64, put_zeros, write_at};
use crate::layout::{DYNAMIC_SYMBOLS, Layout};
use crate::parts::Parts;
use crate::plan::Plan;
use crate::records::put_dynamic_entry;
use crate::sizes::Sizes;
use vw_bits::{List, OutOfMemory};

/// The bytes of the dynamic section: eight entries of 16.
pub const DYNAMIC_SIZE: u64 = 128;

const DT_NULL: u64 = 0;

const DT_STRTAB: u64 = 5;

const DT_SYMTAB: u64 = 6;

const DT_RELA: u64 = 7;

const DT_RELASZ: u64 = 8;

const DT_RELAENT: u64 = 9;

const DT_STRSZ: u64 = 10;

const DT_SYMENT: u64 = 11;

/// Appends the slots of the imports.
#[tactic(auto, unfolding(crate::specs::Tables::slots))]
pub fn put_slots(out: &mut Vec<u8>, plan: &Plan) -> Result<(), OutOfMemory>
    requires { IsPlan plan.now }
    ensures { OnOk result (out.new.items ≡ out.old.items ++ slots plan.now.parts.now.imports) }
{
    put_zeros(out, 8 * plan.sizes.imports as usize)?;
    Ok(())
}

/// Appends `lucet_tables`.
#[tactic(auto, unfolding(crate::specs::Tables::pairs))]
pub fn put_pairs(out: &mut Vec<u8>, tables: &[List<(u64, Option<u32>)>]) -> Result<(), OutOfMemory>
    ensures { OnOk result (out.new.items ≡ out.old.items ++ pairs tables.now) }
{
    for entries in tables {
        put_u64(out, 0)?;
        put_u64(out, entries.len() as u64)?;
    }
    Ok(())
}

/// Appends the tables.
#[tactic(auto, unfolding(crate::specs::Tables::tables))]
pub fn put_tables(out: &mut Vec<u8>, all: &[List<(u64, Option<u32>)>]) -> Result<(), OutOfMemory>
    ensures { OnOk result (out.new.items ≡ out.old.items ++ tables all.now) }
{
    for entries in all {
        put_table(out, entries.as_slice())?;
    }
    Ok(())
}

#[tactic(auto, unfolding(crate::specs::Tables::table))]
fn put_table(out: &mut Vec<u8>, entries: &[(u64, Option<u32>)]) -> Result<(), OutOfMemory>
    ensures { OnOk result (out.new.items ≡ out.old.items ++ table entries.now) }
{
    for entry in entries {
        put_entry(out, *entry)?;
    }
    Ok(())
}

fn put_entry(out: &mut Vec<u8>, item: (u64, Option<u32>)) -> Result<(), OutOfMemory>
    ensures { OnOk result (out.new.items ≡ out.old.items ++ entry item) }
{
    match item {
        (tag, Some(_)) => put_u64(out, tag)?,
        (_, None) => put_u64(out, u64::MAX)?,
    }
    put_u64(out, 0)
}

/// Appends the data, in which the words under binds are 0.
#[tactic(auto, unfolding(crate::specs::Tables::padded_content, crate::specs::Tables::bound_content))]
pub fn put_content(out: &mut Vec<u8>, parts: &Parts) -> Result<(), OutOfMemory>
    requires { MeetsBounds parts.now }
    ensures { OnOk result (out.new.items ≡ out.old.items ++ padded_content parts.now) }
{
    let binds = parts.binds.as_slice();
    let mut content = Vec::from_slice(*out.allocator(), parts.content.as_slice())?;
    for bind in binds {
        write_at(&mut content, bind.0 as usize, &[0; 8]);
    }
    pad(&mut content, 8, 0)?;
    put(out, content.as_slice())
}

/// Appends the dynamic section.
#[tactic(auto, unfolding(crate::specs::Tables::dynamic_section))]
pub fn put_dynamic_section(
    out: &mut Vec<u8>,
    size: &Sizes,
    layout: &Layout,
) -> Result<(), OutOfMemory>
    ensures { OnOk result (out.new.items ≡ out.old.items ++ dynamic_section size.now layout.now) }
{
    put_dynamic_entry(out, DT_STRTAB, layout.dynamic_strings)?;
    put_dynamic_entry(out, DT_SYMTAB, DYNAMIC_SYMBOLS)?;
    put_dynamic_entry(out, DT_STRSZ, size.dynamic_strings)?;
    put_dynamic_entry(out, DT_SYMENT, 24)?;
    put_dynamic_entry(out, DT_RELA, layout.relocations)?;
    put_dynamic_entry(out, DT_RELASZ, size.relocations)?;
    put_dynamic_entry(out, DT_RELAENT, 24)?;
    put_dynamic_entry(out, DT_NULL, 0)
}
