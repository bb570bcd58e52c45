ghost use Rattle.std.specs.Prelude.{◌≡◌, ◌<◌, ◌||◌, ◌==◌, ℕ, length};
ghost use Rattle.vw_names.specs.Spot.{number};
ghost use Rattle.vw_values.specs.Values.{IsValue};
ghost use Rattle.vw_domain.specs.Registers.{IsRow};
ghost use Rattle.vw_domain.specs.State.{AreSlots, IsState};
ghost use Rattle.vw_domain.specs.Changes.{mark, is_other};
ghost use Rattle.vw_domain.specs.Refines.{is_in, is_told, is_told_by, is_tagged, AddsTag, AddsRowTags, AddsSlotTags, AreTags};

use crate::cells::Cell;
use crate::gone::register_of;
use crate::parts::Parts;
use crate::refines::{Comparison, both, is_compared};
use crate::registers::value_at;
use vw_lattice::MapOf;
use vw_names::{Classes, Spot};
use vw_values::Value;

/// The tag that a comparison tells, and of which entries: for each register a set of tables, of which each has a bit. A
/// table is in it where a tag of that table was compared that was read by the register.
#[derive(Clone, Copy, Debug, PartialEq, Eq)]
pub struct Tags {
    /// The tag.
    pub tag: u64,
    /// The sets of tables, by the registers.
    pub tables: [u64; 16],
}

// No entry has this tag or a greater one, but for those that are empty.
const EMPTY: u64 = 0xFFFF_FFFF;

// A set of tables with one more.
fn with_table(tables: u64, table: u32) -> u64
    requires { table < 64 }
    ensures { (t : ℕ) → is_in result t ≡ (is_in tables t || (table == t)) }
{
    tables | (1 << table)
}

// Whether a table is in a set of tables.
fn is_in(tables: u64, table: u32) -> bool
    ensures { result ≡ is_in tables table }
{
    table < 64 && (tables >> table) & 1 == 1
}

// Adds the tag that a value is, where it counts, to the set of the register that it was read by.
fn tell(tables: &mut [u64], value: Value, counts: bool)
    requires tables { length tables.old ≡ 16 }
    requires value { IsValue value }
    ensures { AddsTag counts value tables.old tables.new }
{
    if let Value::TagOf { table, via } = value {
        if counts {
            let register = register_of(via) as usize;
            tables[register] = with_table(tables[register], table);
        }
    }
}

// Adds the tags that are values of registers in the class of the flags.
fn tell_row(tables: &mut [u64], row: &[Cell; 17], classes: &Classes)
    requires tables { length tables.old ≡ 16 }
    requires row { IsRow row.now }
    ensures { AddsRowTags classes.now row.now tables.old tables.new }
{
    for i in 0..17u8 {
        let counts = is_compared(classes, Spot::Reg(i));
        tell(tables, value_at(row, i), counts);
    }
}

// The same of slots.
fn tell_slots(tables: &mut [u64], slots: &MapOf<Value>, classes: &Classes)
    requires tables { length tables.old ≡ 16 }
    requires slots { AreSlots slots.now }
    ensures { AddsSlotTags classes.now slots.now tables.old tables.new }
{
    for i in 0..slots.len() {
        match slots.nth(i) {
            None => return,
            Some((key, value)) => {
                let counts = is_compared(classes, Spot::Slot(key));
                tell(tables, *value, counts);
            }
        }
    }
}

// Whether a tag of a table was read by a register in the class of a place.
fn is_tagged(tables: &[u64; 16], classes: &Classes, place: Spot, table: u32) -> bool
    ensures { result ≡ is_tagged tables.now classes.now (number place) table }
{
    let mut any = false;
    for i in 0..16u8 {
        let is_told = is_in(tables[i as usize], table);
        let here = both(is_told, classes.same(Spot::Reg(i), place));
        any = any || here;
    }
    any
}

// A value with the tag, where it is that of such an entry.
pub(crate) fn marked(value: Value, tags: &Tags, classes: &Classes, place: Spot) -> Value
    ensures { result
        ≡ mark tags.now.tag (is_tagged tags.now.tables classes.now (number place)) value }
{
    match value {
        Value::EntryPtr(table) => {
            if is_tagged(&tags.tables, classes, place, table) {
                Value::EntryTyped {
                    table,
                    tag: tags.tag,
                }
            } else {
                value
            }
        }
        Value::EntryTyped { table, tag: _ } => {
            if is_tagged(&tags.tables, classes, place, table) {
                Value::EntryTyped {
                    table,
                    tag: tags.tag,
                }
            } else {
                value
            }
        }
        Value::Index16 { k, mark: _ } => {
            if is_tagged(&tags.tables, classes, place, 0) {
                Value::Index16 {
                    k,
                    mark: Some((0, tags.tag)),
                }
            } else {
                value
            }
        }
        _ => value,
    }
}

// Whether a value tells another tag of such an entry.
pub(crate) fn is_other(value: Value, tags: &Tags, classes: &Classes, place: Spot) -> bool
    ensures { result
        ≡ is_other tags.now.tag (is_tagged tags.now.tables classes.now (number place)) value }
{
    match value {
        Value::EntryTyped { table, tag } => {
            is_tagged(&tags.tables, classes, place, table) && tag != tags.tag
        }
        Value::Index16 {
            k: _,
            mark: Some((_, tag)),
        } => is_tagged(&tags.tables, classes, place, 0) && tag != tags.tag,
        _ => false,
    }
}

// For each register the tables of which a tag was compared that was read by it.
fn told_tables(parts: &Parts) -> [u64; 16]
    requires { IsState parts.now }
    ensures { (r t : ℕ) → is_told result r t ≡ is_told_by parts.now r t }
{
    let mut tables = [0; 16];
    tell_row(&mut tables, &parts.registers, &parts.classes);
    tell_slots(&mut tables, &parts.slots, &parts.classes);
    tables
}

// The tags that a comparison tells of a state.
pub(crate) fn tags_of(parts: &Parts, comparison: Comparison) -> Tags
    requires { IsState parts.now }
    ensures { AreTags parts.now comparison result }
{
    match comparison {
        Comparison::Below { width: _, k } => Tags {
            tag: k,
            tables: [0; 16],
        },
        Comparison::Equal { width: _, k } => {
            let tables = if k < EMPTY {
                told_tables(parts)
            } else {
                [0; 16]
            };
            Tags { tag: k, tables }
        }
    }
}
