ghost use Rattle.std.specs.Prelude.{◌≡◌, ◌<◌, ◌++◌, Option, Some, None, List, IfOk};
ghost use Rattle.vw_report.specs.Items.{Gives, Reads, after, read_maybe, with_first};
ghost use Rattle.vw_report.specs.ValueText.{register_text};
ghost use Rattle.vw_report.specs.StateText.{register_mark};
ghost use Rattle.vw_report.specs.Grammar.{class, classes, entry_item, equals, fact, further, offsets, parts, point_item, point_of, shown_value, signed, slots, value_or_any, values, written};

use crate::fail::Fail;
use crate::print_values::register_name;
use crate::read_numbers::{behind, hex8_at, hex16_at, number_at, signed_at};
use crate::read_values::{compared_at, place_at, range_at, shown_value_at, slot_at};
use std::alloc::Global;
use vw_bits::{List, OutOfMemory};
use vw_domain::{Fact, Slot, StateParts};
use vw_names::Spot;
use vw_values::Value;

#[tactic(auto, unfolding(crate::specs::Grammar::slots))]
pub fn slots_at(alloc: Global, bytes: &[u8]) -> Result<(List<Slot>, &[u8]), Fail>
    ensures { Gives (λ x. (x.0, x.1.now)) result (slots.read bytes.now) }
{
    let mut items = List::new(alloc);
    let mut rest = bytes;
    for i in 0..bytes.len() {
        match behind(rest, b" s") {
            None => return Ok((items, rest)),
            Some(tail) => match slot_at(tail) {
                None => return Err(Fail::Bad),
                Some((item, tail)) => {
                    items.push(item)?;
                    rest = tail;
                }
            },
        }
    }
    Ok((items, rest))
}

#[tactic(auto, unfolding(crate::specs::Grammar::written))]
pub fn written_at(alloc: Global, bytes: &[u8]) -> Result<(List<(i64, i64)>, &[u8]), Fail>
    ensures { Gives (λ x. (x.0, x.1.now)) result (written.read bytes.now) }
{
    let mut items = List::new(alloc);
    let mut rest = bytes;
    for i in 0..bytes.len() {
        match behind(rest, b" w") {
            None => return Ok((items, rest)),
            Some(tail) => match range_at(tail) {
                None => return Err(Fail::Bad),
                Some((item, tail)) => {
                    items.push(item)?;
                    rest = tail;
                }
            },
        }
    }
    Ok((items, rest))
}

// A class of which the first place is read.
#[tactic(auto, unfolding(crate::specs::Grammar::further))]
fn further_at(alloc: Global, first: Spot, bytes: &[u8]) -> Result<(List<Spot>, &[u8]), Fail>
    ensures { Gives (λ x. (x.0, x.1.now)) result (with_first first (further.read bytes.now)) }
{
    let mut items = List::new(alloc);
    items.push(first)?;
    let mut rest = bytes;
    for i in 0..bytes.len() {
        match behind(rest, b"=") {
            None => return Ok((items, rest)),
            Some(tail) => match place_at(tail) {
                None => return Err(Fail::Bad),
                Some((item, tail)) => {
                    items.push(item)?;
                    rest = tail;
                }
            },
        }
    }
    Ok((items, rest))
}

#[tactic(auto, unfolding(crate::specs::Grammar::class))]
pub fn class_at(alloc: Global, bytes: &[u8]) -> Result<(List<Spot>, &[u8]), Fail>
    ensures { Gives (λ x. (x.0, x.1.now)) result (class.read bytes.now) }
{
    match place_at(bytes) {
        None => Err(Fail::Bad),
        Some((first, rest)) => further_at(alloc, first, rest),
    }
}

#[tactic(auto, unfolding(crate::specs::Grammar::classes))]
pub fn classes_at(alloc: Global, bytes: &[u8]) -> Result<(List<List<Spot>>, &[u8]), Fail>
    ensures { Gives (λ x. (x.0, x.1.now)) result (classes.read bytes.now) }
{
    let mut items = List::new(alloc);
    let mut rest = bytes;
    for i in 0..bytes.len() {
        match behind(rest, b" e") {
            None => return Ok((items, rest)),
            Some(tail) => {
                let (item, tail) = class_at(alloc, tail)?;
                items.push(item)?;
                rest = tail;
            }
        }
    }
    Ok((items, rest))
}

// The list of an array's items.
fn list_of<T: Drop>(alloc: Global, items: [T; 16]) -> Result<List<T>, OutOfMemory>
    ensures { IfOk result (λ list. list ≡ items) }
{
    Ok(List::from_vec(Vec::from_array(alloc, items)?))
}

#[tactic(auto, using(crate::proofs::AfterLemmas::after_append))]
fn name_behind(r: u8, bytes: &[u8]) -> Option<&[u8]>
    ensures { Reads (λ rest. rest.now) result (after (register_text r ++ equals) bytes.now) }
{
    let rest = behind(bytes, register_name(r))?;
    behind(rest, b"=")
}

// What stands behind a letter, a register's name and an equals sign.
fn field_behind(letter: u8, r: u8, bytes: &[u8]) -> Option<&[u8]>
    ensures { Reads (λ rest. rest.now) result (after (register_mark letter r) bytes.now) }
{
    match bytes {
        [b, c, rest @ ..] => {
            if *b != b' ' || *c != letter {
                None
            } else {
                name_behind(r, rest)
            }
        }
        _ => None,
    }
}

// The offset of a register, if its field is there.
fn offset_at(r: u8, bytes: &[u8]) -> Option<(Option<i64>, &[u8])>
    ensures { Reads (λ x. (x.0, x.1.now)) result (read_maybe (register_mark 111 r) signed bytes.now) }
{
    match field_behind(b'o', r, bytes) {
        None => Some((None, bytes)),
        Some(rest) => {
            let (offset, rest) = signed_at(rest)?;
            Some((Some(offset), rest))
        }
    }
}

#[tactic(auto, unfolding(crate::specs::Grammar::offsets))]
pub fn offsets_at(alloc: Global, bytes: &[u8]) -> Result<(List<Option<i64>>, &[u8]), Fail>
    ensures { Gives (λ x. (x.0, x.1.now)) result (offsets.read bytes.now) }
{
    let mut items: [Option<i64>; 16] = [None; 16];
    let mut rest = bytes;
    for r in 0..16 {
        match offset_at(r, rest) {
            None => return Err(Fail::Bad),
            Some((item, tail)) => {
                items[r as usize] = item;
                rest = tail;
            }
        }
    }
    Ok((list_of(alloc, items)?, rest))
}

// The value of a register, Any if its field is not there.
fn register_value_at(r: u8, bytes: &[u8]) -> Option<(Value, &[u8])>
    ensures { Reads (λ x. (x.0, x.1.now)) result
        (value_or_any (read_maybe (register_mark 118 r) shown_value bytes.now)) }
{
    match field_behind(b'v', r, bytes) {
        None => Some((Value::Any, bytes)),
        Some(rest) => shown_value_at(rest),
    }
}

#[tactic(auto, unfolding(crate::specs::Grammar::values))]
pub fn values_at(alloc: Global, bytes: &[u8]) -> Result<(List<Value>, &[u8]), Fail>
    ensures { Gives (λ x. (x.0, x.1.now)) result (values.read bytes.now) }
{
    let mut items = [Value::Any; 16];
    let mut rest = bytes;
    for r in 0..16 {
        match register_value_at(r, rest) {
            None => return Err(Fail::Bad),
            Some((item, tail)) => {
                items[r as usize] = item;
                rest = tail;
            }
        }
    }
    Ok((list_of(alloc, items)?, rest))
}

#[tactic(auto, unfolding(crate::specs::Grammar::fact))]
pub fn fact_at(bytes: &[u8]) -> Option<(Fact, &[u8])>
    ensures { Reads (λ x. (x.0, x.1.now)) result (fact.read bytes.now) }
{
    match behind(bytes, b" f") {
        None => Some((Fact::Unknown, bytes)),
        Some(rest) => {
            let (compared, rest) = compared_at(rest)?;
            Some((
                Fact::Compare {
                    w: compared.0,
                    k: compared.1,
                },
                rest,
            ))
        }
    }
}

#[tactic(auto, unfolding(crate::specs::Grammar::parts, crate::specs::Grammar::after_probed, crate::specs::Grammar::after_slots))]
pub fn parts_at(alloc: Global, bytes: &[u8]) -> Result<(StateParts, &[u8]), Fail>
    ensures { Gives (λ x. (x.0, x.1.now)) result (parts.read bytes.now) }
{
    let (probed, rest) = match number_at(bytes) {
        None => return Err(Fail::Bad),
        Some(x) => x,
    };
    let (offsets, rest) = offsets_at(alloc, rest)?;
    let (values, rest) = values_at(alloc, rest)?;
    let (slots, rest) = slots_at(alloc, rest)?;
    let (classes, rest) = classes_at(alloc, rest)?;
    let (fact, rest) = match fact_at(rest) {
        None => return Err(Fail::Bad),
        Some(x) => x,
    };
    let (written, rest) = written_at(alloc, rest)?;
    Ok((
        StateParts {
            offsets,
            values,
            probed,
            written,
            slots,
            classes,
            fact,
        },
        rest,
    ))
}

#[tactic(auto, unfolding(crate::specs::Grammar::point_item, crate::specs::Grammar::point))]
pub fn point_at(alloc: Global, bytes: &[u8]) -> Result<((u32, StateParts), &[u8]), Fail>
    ensures { Gives (λ x. (point_of x.0, x.1.now)) result (point_item.read bytes.now) }
{
    let rest = match behind(bytes, b"at ") {
        None => return Err(Fail::Bad),
        Some(rest) => rest,
    };
    let (at, rest) = match hex8_at(rest) {
        None => return Err(Fail::Bad),
        Some(x) => x,
    };
    let rest = match behind(rest, b" p") {
        None => return Err(Fail::Bad),
        Some(rest) => rest,
    };
    let (parts, rest) = parts_at(alloc, rest)?;
    let rest = match behind(rest, b"\n") {
        None => return Err(Fail::Bad),
        Some(rest) => rest,
    };
    Ok(((at, parts), rest))
}

// The line of a function: its entry.
#[tactic(auto, unfolding(crate::specs::Grammar::entry_item, crate::specs::Grammar::entry))]
pub fn entry_at(bytes: &[u8]) -> Option<(u64, &[u8])>
    ensures { Reads (λ x. (x.0, x.1.now)) result (entry_item.read bytes.now) }
{
    let rest = behind(bytes, b"function ")?;
    let (entry, rest) = hex16_at(rest)?;
    let rest = behind(rest, b"\n")?;
    Some((entry, rest))
}
