ghost use Rattle.std.specs.Prelude.{◌≡◌, ◌++◌, ◌∷◌, ◌<◌, length, map, codes, OnOk};
ghost use Rattle.std.specs.List.{flat_map};
ghost use Rattle.vw_report.specs.ValueText.{place_text, signed_text, value_text};
ghost use Rattle.vw_report.specs.StateText.{class_text, classes_text, fact_text, known_text, known_value, offsets_text, range_text, register_mark, slot_text, slots_text, state_text, values_text, written_text};

use crate::print_values::{push_place, push_signed, push_value, register_name};
use vw_bits::{List, OutOfMemory, Text};
use vw_domain::{Fact, Slot, StateParts};
use vw_names::Spot;
use vw_values::Value;

// Appends what stands before the offset or the value of a register.
fn push_mark(text: &mut Text, letter: u8, register: u8) -> Result<(), OutOfMemory>
    ensures { OnOk result (text.new ≡ text.old ++ register_mark letter register) }
{
    text.push(&[b' ', letter])?;
    text.push(register_name(register))?;
    text.push(b"=")
}

// Appends the offset of a register, if it is known.
fn push_offset(text: &mut Text, register: u8, offset: Option<i64>) -> Result<(), OutOfMemory>
    ensures { OnOk result
        (text.new ≡ text.old ++ known_text signed_text (register_mark 111 register) offset) }
{
    match offset {
        None => Ok(()),
        Some(c) => {
            push_mark(text, b'o', register)?;
            push_signed(text, c)
        }
    }
}

// Appends the value of a register, if it is not any.
fn push_register_value(text: &mut Text, register: u8, value: Value) -> Result<(), OutOfMemory>
    ensures { OnOk result
        (text.new ≡ text.old ++ known_text value_text (register_mark 118 register) (known_value value)) }
{
    match value {
        Value::Any => Ok(()),
        _ => {
            push_mark(text, b'v', register)?;
            push_value(text, value)
        }
    }
}

// Appends the offsets of the registers.
fn push_offsets(text: &mut Text, offsets: &[Option<i64>]) -> Result<(), OutOfMemory>
    requires { length offsets.now ≡ 16 }
    ensures { OnOk result (text.new ≡ text.old ++ offsets_text offsets.now) }
{
    for register in 0..16 {
        push_offset(text, register, offsets[register as usize])?;
    }
    Ok(())
}

// Appends the values of the registers.
fn push_values(text: &mut Text, values: &[Value]) -> Result<(), OutOfMemory>
    requires { length values.now ≡ 16 }
    ensures { OnOk result (text.new ≡ text.old ++ values_text values.now) }
{
    for register in 0..16 {
        push_register_value(text, register, values[register as usize])?;
    }
    Ok(())
}

// Appends a slot.
fn push_slot(text: &mut Text, slot: &Slot) -> Result<(), OutOfMemory>
    ensures { OnOk result (text.new ≡ text.old ++ (codes " s" ++ slot_text slot.now)) }
{
    text.push(b" s")?;
    push_signed(text, slot.offset)?;
    text.push(b"/")?;
    text.dec(slot.size as u64)?;
    text.push(b"=")?;
    push_value(text, slot.value)
}

fn push_slots(text: &mut Text, slots: &[Slot]) -> Result<(), OutOfMemory>
    ensures { OnOk result (text.new ≡ text.old ++ slots_text slots.now) }
{
    for slot in slots {
        push_slot(text, slot)?;
    }
    Ok(())
}

// Appends a further place of a class.
fn push_further(text: &mut Text, place: Spot) -> Result<(), OutOfMemory>
    ensures { OnOk result (text.new ≡ text.old ++ (codes "=" ++ place_text place)) }
{
    text.push(b"=")?;
    push_place(text, place)
}

fn push_others(text: &mut Text, places: &[Spot]) -> Result<(), OutOfMemory>
    ensures { OnOk result
        (text.new ≡ text.old ++ flat_map (λ place. codes "=" ++ place_text place) places.now) }
{
    for place in places {
        push_further(text, *place)?;
    }
    Ok(())
}

// Appends a class.
fn push_class(text: &mut Text, class: &[Spot]) -> Result<(), OutOfMemory>
    ensures { OnOk result (text.new ≡ text.old ++ (codes " e" ++ class_text class.now)) }
{
    text.push(b" e")?;
    match class {
        [] => Ok(()),
        [first, others @ ..] => {
            push_place(text, *first)?;
            push_others(text, others)
        }
    }
}

fn push_classes(text: &mut Text, classes: &[List<Spot>]) -> Result<(), OutOfMemory>
    ensures { OnOk result (text.new ≡ text.old ++ classes_text classes.now) }
{
    for class in classes {
        push_class(text, class.as_slice())?;
    }
    Ok(())
}

fn push_fact(text: &mut Text, fact: Fact) -> Result<(), OutOfMemory>
    ensures { OnOk result (text.new ≡ text.old ++ fact_text fact) }
{
    match fact {
        Fact::Unknown => Ok(()),
        Fact::Compare { w, k } => {
            text.push(b" f")?;
            text.dec(w as u64)?;
            text.push(b":")?;
            text.dec(k)
        }
    }
}

// Appends a range of written bytes.
fn push_range(text: &mut Text, range: (i64, i64)) -> Result<(), OutOfMemory>
    ensures { OnOk result (text.new ≡ text.old ++ (codes " w" ++ range_text range)) }
{
    text.push(b" w")?;
    push_signed(text, range.0)?;
    text.push(b":")?;
    push_signed(text, range.1)
}

fn push_written(text: &mut Text, ranges: &[(i64, i64)]) -> Result<(), OutOfMemory>
    ensures { OnOk result (text.new ≡ text.old ++ written_text ranges.now) }
{
    for range in ranges {
        push_range(text, *range)?;
    }
    Ok(())
}

// Appends the fields of a state with these parts.
#[tactic(auto, unfolding(crate::specs::StateText::state_text))]
pub fn push_state(text: &mut Text, parts: &StateParts) -> Result<(), OutOfMemory>
    requires offsets { length parts.now.offsets ≡ 16 }
    requires values { length parts.now.values ≡ 16 }
    ensures { OnOk result (text.new ≡ text.old ++ state_text parts.now) }
{
    text.push(b" p")?;
    text.dec(parts.probed)?;
    push_offsets(text, parts.offsets.as_slice())?;
    push_values(text, parts.values.as_slice())?;
    push_slots(text, parts.slots.as_slice())?;
    push_classes(text, parts.classes.as_slice())?;
    push_fact(text, parts.fact)?;
    push_written(text, parts.written.as_slice())
}
