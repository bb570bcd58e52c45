ghost use Rattle.std.specs.Prelude.{◌≡◌, ◌≢◌, ◌∷◌, [], List, ℕ, Option, Some, None};
ghost use Rattle.vw_report.specs.Items.{Reads, first_word, nothing, maybe};
ghost use Rattle.vw_report.specs.NumberItems.{number};
ghost use Rattle.vw_report.specs.ValueText.{register_text};
ghost use Rattle.vw_report.specs.StateText.{registers};
ghost use Rattle.vw_report.specs.declared.kinds.Kind.TheVariants as kinds;
ghost use Rattle.vw_report.specs.Grammar.{all_kinds, colon, compared, kind_name, mark, place, range, register, shown_value, size, slot, table, value, value_args, via, width, Breaks};

use crate::kinds::Kind;
use crate::print_values::register_name;
use crate::read_numbers::{behind, hex16_at, number_at, signed_at, table_at};
use vw_domain::Slot;
use vw_names::Spot;
use vw_values::{Value, Via};

// The word that a kind's text begins with.
pub fn kind_word(kind: Kind) -> &'static [u8]
    ensures { result.now ≡ kind_name kind }
{
    match kind {
        Kind::Any => b"any",
        Kind::Num => b"num",
        Kind::Const => b"const:",
        Kind::Below => b"below:",
        Kind::Low => b"low:",
        Kind::Both => b"both:",
        Kind::HeapBase => b"heapbase",
        Kind::HeapAddr => b"heapaddr",
        Kind::Globals => b"globals",
        Kind::Entry => b"entry:",
        Kind::Image => b"image:",
        Kind::Index16 => b"index:",
        Kind::EntryPtr => b"entryptr:",
        Kind::EntryTyped => b"entrytyped:",
        Kind::TagOf => b"tag:",
        Kind::TableFn => b"tablefn:",
        Kind::JumpOff => b"jumpoff:",
        Kind::JumpDest => b"jumpdest:",
    }
}

// The register whose name is an r and these two characters.
fn register_of(second: u8, third: u8) -> Option<u8>
    requires eight { second ≢ 56 }
    requires nine { second ≢ 57 }
    ensures { (rest : List ℕ)
        → Reads (λ r. (r, rest)) result (first_word registers register_text (114 ∷ second ∷ third ∷ rest)) }
{
    match second {
        b'a' => if third == b'x' { Some(0) } else { None },
        b'c' => if third == b'x' { Some(1) } else { None },
        b'd' => match third {
            b'x' => Some(2),
            b'i' => Some(7),
            _ => None,
        },
        b'b' => match third {
            b'x' => Some(3),
            b'p' => Some(5),
            _ => None,
        },
        b's' => match third {
            b'p' => Some(4),
            b'i' => Some(6),
            _ => None,
        },
        b'1' => match third {
            b'0'..=b'5' => Some(third - 38),
            _ => None,
        },
        _ => None,
    }
}

// A register by what stands behind the first two characters of its name.
fn register_behind(second: u8, bytes: &[u8]) -> Option<(u8, &[u8])>
    ensures { Reads (λ x. (x.0, x.1.now)) result
        (first_word registers register_text (114 ∷ second ∷ bytes.now)) }
{
    match second {
        b'8' => Some((8, bytes)),
        b'9' => Some((9, bytes)),
        _ => match bytes {
            [] => None,
            [third, rest @ ..] => {
                let r = register_of(second, *third)?;
                Some((r, rest))
            }
        },
    }
}

// A register by its name.
#[tactic(auto, unfolding(crate::specs::Grammar::register))]
pub fn register_at(bytes: &[u8]) -> Option<(u8, &[u8])>
    ensures { Reads (λ x. (x.0, x.1.now)) result (register.read bytes.now) }
{
    match bytes {
        [first, second, rest @ ..] => {
            if *first == b'r' {
                register_behind(*second, rest)
            } else {
                None
            }
        }
        _ => None,
    }
}

// A kind of a value, by its word.
fn word_at(kind: Kind, bytes: &[u8]) -> Option<(Kind, &[u8])>
    ensures { Reads (λ x. (x.0, x.1.now)) result (first_word (kind ∷ []) kind_name bytes.now) }
{
    let rest = behind(bytes, kind_word(kind))?;
    Some((kind, rest))
}

// One of two kinds.
fn either_at(first: Kind, second: Kind, bytes: &[u8]) -> Option<(Kind, &[u8])>
    ensures { Reads (λ x. (x.0, x.1.now)) result (first_word (first ∷ second ∷ []) kind_name bytes.now) }
{
    match behind(bytes, kind_word(first)) {
        Some(rest) => Some((first, rest)),
        None => word_at(second, bytes),
    }
}

// A kind of an entry.
fn entry_kind_at(bytes: &[u8]) -> Option<(Kind, &[u8])>
    ensures { Reads (λ x. (x.0, x.1.now)) result (first_word (kinds.Entry ∷ kinds.EntryPtr ∷ kinds.EntryTyped ∷ []) kind_name bytes.now) }
{
    match behind(bytes, b"entry:") {
        Some(rest) => Some((Kind::Entry, rest)),
        None => either_at(Kind::EntryPtr, Kind::EntryTyped, bytes),
    }
}

// The kind of a value. The first letter leaves one, two or three.
fn kind_at(bytes: &[u8]) -> Option<(Kind, &[u8])>
    ensures { Reads (λ x. (x.0, x.1.now)) result (first_word all_kinds kind_name bytes.now) }
{
    match bytes {
        [] => None,
        [letter, ..] => match *letter {
            b'a' => word_at(Kind::Any, bytes),
            b'n' => word_at(Kind::Num, bytes),
            b'c' => word_at(Kind::Const, bytes),
            b'l' => word_at(Kind::Low, bytes),
            b'g' => word_at(Kind::Globals, bytes),
            b'b' => either_at(Kind::Below, Kind::Both, bytes),
            b'h' => either_at(Kind::HeapBase, Kind::HeapAddr, bytes),
            b'i' => either_at(Kind::Image, Kind::Index16, bytes),
            b't' => either_at(Kind::TagOf, Kind::TableFn, bytes),
            b'j' => either_at(Kind::JumpOff, Kind::JumpDest, bytes),
            b'e' => entry_kind_at(bytes),
            _ => None,
        },
    }
}

#[tactic(auto, unfolding(crate::specs::Grammar::via))]
fn via_at(bytes: &[u8]) -> Option<(Via, &[u8])>
    ensures { Reads (λ x. (x.0, x.1.now)) result (via.read bytes.now) }
{
    match behind(bytes, b"at:") {
        Some(rest) => {
            let (r, rest) = register_at(rest)?;
            Some((Via::At(r), rest))
        }
        None => match behind(bytes, b"idx:") {
            Some(rest) => {
                let (r, rest) = register_at(rest)?;
                Some((Via::Idx(r), rest))
            }
            None => None,
        },
    }
}

#[tactic(auto, unfolding(crate::specs::Grammar::mark))]
fn mark_at(bytes: &[u8]) -> Option<((u32, u64), &[u8])>
    ensures { Reads (λ x. (x.0, x.1.now)) result (mark.read bytes.now) }
{
    let (t, rest) = table_at(bytes)?;
    let rest = behind(rest, b":")?;
    let (g, rest) = number_at(rest)?;
    Some(((t, g), rest))
}

fn marks_at(bytes: &[u8]) -> Option<(Option<(u32, u64)>, &[u8])>
    ensures { Reads (λ x. (x.0, x.1.now)) result ((maybe colon mark Breaks).read bytes.now) }
{
    match behind(bytes, b":") {
        None => Some((None, bytes)),
        Some(rest) => {
            let (m, rest) = mark_at(rest)?;
            Some((Some(m), rest))
        }
    }
}

// What stands behind a kind's word.
fn value_behind(kind: Kind, bytes: &[u8]) -> Option<(Value, &[u8])>
    ensures { Reads (λ x. (x.0, x.1.now)) result ((value_args kind).read bytes.now) }
{
    match kind {
        Kind::Any => Some((Value::Any, bytes)),
        Kind::Num => Some((Value::Num, bytes)),
        Kind::HeapBase => Some((Value::HeapBase, bytes)),
        Kind::HeapAddr => Some((Value::HeapAddr, bytes)),
        Kind::Globals => Some((Value::Globals, bytes)),
        Kind::Const => {
            let (c, rest) = hex16_at(bytes)?;
            Some((Value::Const(c), rest))
        }
        Kind::Image => {
            let (a, rest) = hex16_at(bytes)?;
            Some((Value::Image(a), rest))
        }
        Kind::Below => {
            let (k, rest) = number_at(bytes)?;
            Some((Value::Below(k), rest))
        }
        Kind::Low => {
            let (k, rest) = number_at(bytes)?;
            Some((Value::Low(k), rest))
        }
        Kind::Both => {
            let (k, rest) = number_at(bytes)?;
            Some((Value::Both(k), rest))
        }
        Kind::Entry => {
            let (r, rest) = register_at(bytes)?;
            Some((Value::Entry(r), rest))
        }
        Kind::EntryPtr => {
            let (t, rest) = table_at(bytes)?;
            Some((Value::EntryPtr(t), rest))
        }
        Kind::Index16 => {
            let (k, rest) = number_at(bytes)?;
            let (mark, rest) = marks_at(rest)?;
            Some((Value::Index16 { k, mark }, rest))
        }
        Kind::EntryTyped => {
            let (table, rest) = table_at(bytes)?;
            let rest = behind(rest, b":")?;
            let (tag, rest) = number_at(rest)?;
            Some((Value::EntryTyped { table, tag }, rest))
        }
        Kind::TagOf => {
            let (table, rest) = table_at(bytes)?;
            let rest = behind(rest, b":")?;
            let (via, rest) = via_at(rest)?;
            Some((Value::TagOf { table, via }, rest))
        }
        Kind::TableFn => {
            let (table, rest) = table_at(bytes)?;
            let rest = behind(rest, b":")?;
            let (tag, rest) = number_at(rest)?;
            Some((Value::TableFn { table, tag }, rest))
        }
        Kind::JumpOff => {
            let (a, rest) = hex16_at(bytes)?;
            let rest = behind(rest, b":")?;
            let (k, rest) = number_at(rest)?;
            Some((Value::JumpOff { a, k }, rest))
        }
        Kind::JumpDest => {
            let (a, rest) = hex16_at(bytes)?;
            let rest = behind(rest, b":")?;
            let (k, rest) = number_at(rest)?;
            Some((Value::JumpDest { a, k }, rest))
        }
    }
}

// A value.
#[tactic(auto, unfolding(crate::specs::Grammar::value))]
pub fn value_at(bytes: &[u8]) -> Option<(Value, &[u8])>
    ensures { Reads (λ x. (x.0, x.1.now)) result (value.read bytes.now) }
{
    let (kind, rest) = kind_at(bytes)?;
    value_behind(kind, rest)
}

// A place.
#[tactic(auto, unfolding(crate::specs::Grammar::place))]
pub fn place_at(bytes: &[u8]) -> Option<(Spot, &[u8])>
    ensures { Reads (λ x. (x.0, x.1.now)) result (place.read bytes.now) }
{
    match behind(bytes, b"flags") {
        Some(rest) => Some((Spot::Flags, rest)),
        None => match behind(bytes, b"s") {
            Some(rest) => {
                let (o, rest) = signed_at(rest)?;
                Some((Spot::Slot(o), rest))
            }
            None => {
                let (r, rest) = register_at(bytes)?;
                Some((Spot::Reg(r), rest))
            }
        },
    }
}

#[tactic(auto, unfolding(crate::specs::Grammar::size))]
fn size_at(bytes: &[u8]) -> Option<(u8, &[u8])>
    ensures { Reads (λ x. (x.0, x.1.now)) result (size.read bytes.now) }
{
    match behind(bytes, b"/4=") {
        Some(rest) => Some((4, rest)),
        None => {
            let rest = behind(bytes, b"/8=")?;
            Some((8, rest))
        }
    }
}

#[tactic(auto, unfolding(crate::specs::Grammar::slot))]
pub fn slot_at(bytes: &[u8]) -> Option<(Slot, &[u8])>
    ensures { Reads (λ x. (x.0, x.1.now)) result (slot.read bytes.now) }
{
    let (offset, rest) = signed_at(bytes)?;
    let (size, rest) = size_at(rest)?;
    let (value, rest) = value_at(rest)?;
    Some((
        Slot {
            offset,
            size,
            value,
        },
        rest,
    ))
}

#[tactic(auto, unfolding(crate::specs::Grammar::width))]
fn width_at(bytes: &[u8]) -> Option<(u8, &[u8])>
    ensures { Reads (λ x. (x.0, x.1.now)) result (width.read bytes.now) }
{
    match behind(bytes, b"32:") {
        Some(rest) => Some((32, rest)),
        None => {
            let rest = behind(bytes, b"64:")?;
            Some((64, rest))
        }
    }
}

#[tactic(auto, unfolding(crate::specs::Grammar::compared))]
pub fn compared_at(bytes: &[u8]) -> Option<((u8, u64), &[u8])>
    ensures { Reads (λ x. (x.0, x.1.now)) result (compared.read bytes.now) }
{
    let (w, rest) = width_at(bytes)?;
    let (k, rest) = number_at(rest)?;
    Some(((w, k), rest))
}

#[tactic(auto, unfolding(crate::specs::Grammar::range))]
pub fn range_at(bytes: &[u8]) -> Option<((i64, i64), &[u8])>
    ensures { Reads (λ x. (x.0, x.1.now)) result (range.read bytes.now) }
{
    let (low, rest) = signed_at(bytes)?;
    let rest = behind(rest, b":")?;
    let (high, rest) = signed_at(rest)?;
    Some(((low, high), rest))
}

#[tactic(auto, unfolding(crate::specs::Grammar::shown_value))]
pub fn shown_value_at(bytes: &[u8]) -> Option<(Value, &[u8])>
    ensures { Reads (λ x. (x.0, x.1.now)) result (shown_value.read bytes.now) }
{
    let (value, rest) = value_at(bytes)?;
    match value {
        Value::Any => None,
        _ => Some((value, rest)),
    }
}
