ghost use Rattle.std.specs.Prelude.{◌≡◌, ◌+◌, ◌*◌, ◌<◌, ◌^◌, ◌++◌, length, All, OnOk};
ghost use Rattle.vw_make.specs.Bounds.{EntryFits};
ghost use Rattle.vw_make.specs.Plan.{IsPlan};
ghost use Rattle.vw_make.specs.Relocations.{relocations, relative, slot_relocations, pair_relocations, entry_relocation, entry_relocations, table_relocations, bind_relocations};

use crate::plan::Plan;
use crate::records::{RelaEntry, put_relocation};
use vw_bits::OutOfMemory;

/// R_X86_64_64.
const WORD: u32 = 1;
/// R_X86_64_GLOB_DAT.
const GLOB_DAT: u32 = 6;
/// R_X86_64_RELATIVE.
const RELATIVE: u32 = 8;

/// Appends the relocation table: the slots, the pairs, the entries that are not empty, the binds.
#[tactic(auto, unfolding(crate::specs::Relocations::relocations))]
pub fn put_relocations(out: &mut Vec<u8>, plan: &Plan) -> Result<(), OutOfMemory>
    requires { IsPlan plan.now }
    ensures { OnOk result (out.new.items
        ≡ out.old.items ++ relocations plan.now.parts.now plan.now.layout) }
{
    put_slot_relocations(out, plan)?;
    put_pair_relocations(out, plan)?;
    put_entry_relocations(out, plan)?;
    put_bind_relocations(out, plan)
}

#[tactic(auto, unfolding(crate::specs::Relocations::slot_relocations))]
fn put_slot_relocations(out: &mut Vec<u8>, plan: &Plan) -> Result<(), OutOfMemory>
    requires { IsPlan plan.now }
    ensures { OnOk result (out.new.items
        ≡ out.old.items ++ slot_relocations plan.now.parts.now.imports plan.now.layout) }
{
    let count = plan.parts.imports.len() as u32;
    for number in 0..count {
        let entry = RelaEntry {
            offset: plan.layout.slots + 8 * number as u64,
            kind: GLOB_DAT,
            symbol: number + 1,
            addend: 0,
        };
        put_relocation(out, &entry)?;
    }
    Ok(())
}

// Appends the relocation of a word that holds an address of this file.
fn put_relative(out: &mut Vec<u8>, at: u64, address: u64) -> Result<(), OutOfMemory>
    ensures { OnOk result (out.new.items ≡ out.old.items ++ relative at address) }
{
    let entry = RelaEntry {
        offset: at,
        kind: RELATIVE,
        symbol: 0,
        addend: address,
    };
    put_relocation(out, &entry)
}

#[tactic(auto, unfolding(crate::specs::Relocations::pair_relocations))]
fn put_pair_relocations(out: &mut Vec<u8>, plan: &Plan) -> Result<(), OutOfMemory>
    requires { IsPlan plan.now }
    ensures { OnOk result (out.new.items
        ≡ out.old.items ++ pair_relocations plan.now.parts.now.tables plan.now.layout) }
{
    let tables = plan.parts.tables.as_slice();
    let mut pair = plan.layout.lucet_tables;
    let mut table = plan.layout.tables;
    for entries in tables {
        put_relative(out, pair, table)?;
        pair += 16;
        table += 16 * entries.len() as u64;
    }
    Ok(())
}

#[tactic(auto, unfolding(crate::specs::Relocations::entry_relocations))]
fn put_entry_relocations(out: &mut Vec<u8>, plan: &Plan) -> Result<(), OutOfMemory>
    requires { IsPlan plan.now }
    ensures { OnOk result (out.new.items
        ≡ out.old.items ++ entry_relocations plan.now.parts.now.functions plan.now.parts.now.tables plan.now.layout) }
{
    let tables = plan.parts.tables.as_slice();
    let mut table = plan.layout.tables;
    for entries in tables {
        put_table_relocations(out, plan, table, entries.as_slice())?;
        table += 16 * entries.len() as u64;
    }
    Ok(())
}

// Appends those of the entries of a table that begins at `at`.
#[tactic(auto, unfolding(crate::specs::Relocations::table_relocations))]
fn put_table_relocations(
    out: &mut Vec<u8>,
    plan: &Plan,
    at: u64,
    entries: &[(u64, Option<u32>)],
) -> Result<(), OutOfMemory>
    requires plan { IsPlan plan.now }
    requires there { All (EntryFits plan.now.parts.now) entries.now }
    requires fits { at + 16 * length entries.now < 2 ^ 40 }
    ensures { OnOk result (out.new.items
        ≡ out.old.items ++ table_relocations plan.now.parts.now.functions plan.now.layout at entries.now) }
{
    let mut place = at;
    for entry in entries {
        put_entry_relocation(out, plan, place, *entry)?;
        place += 16;
    }
    Ok(())
}

// Appends that of an entry that begins at `at`, if it is not empty.
fn put_entry_relocation(
    out: &mut Vec<u8>,
    plan: &Plan,
    at: u64,
    entry: (u64, Option<u32>),
) -> Result<(), OutOfMemory>
    requires plan { IsPlan plan.now }
    requires there { EntryFits plan.now.parts.now entry }
    requires fits { at < 2 ^ 40 }
    ensures { OnOk result (out.new.items
        ≡ out.old.items ++ entry_relocation plan.now.parts.now.functions plan.now.layout at entry) }
{
    match entry.1 {
        Some(function) => put_relative(out, at + 8, plan.functions[function as usize]),
        None => Ok(()),
    }
}

#[tactic(auto, unfolding(crate::specs::Relocations::bind_relocations))]
fn put_bind_relocations(out: &mut Vec<u8>, plan: &Plan) -> Result<(), OutOfMemory>
    requires { IsPlan plan.now }
    ensures { OnOk result (out.new.items
        ≡ out.old.items ++ bind_relocations plan.now.parts.now.binds plan.now.layout) }
{
    let binds = plan.parts.binds.as_slice();
    for bind in binds {
        let entry = RelaEntry {
            offset: plan.layout.content + bind.0 as u64,
            kind: WORD,
            symbol: bind.1 + 1,
            addend: 0,
        };
        put_relocation(out, &entry)?;
    }
    Ok(())
}
