ghost use Rattle.std.specs.Prelude.{◌≡◌, Bool, true, find, IfSome, slice_get};
ghost use Rattle.vw_rows.specs.Rows.{rows};
ghost use Rattle.vw_rows.specs.Lookup.{IsIn, key, matches, takes_prefix, has_opcode, has_digit, has_form, same_map};
ghost use Rattle.vw_rows.specs.Levels.{numbered, with_digit};

use crate::levels::entry_at;
use crate::tables::all_rows;
use crate::{Form, Key, Map, Pattern, Prefix, Prefixes, Row};

/// The one row of an instruction with this prefix, map, opcode, reg field and form, or `None` where
/// there is no such row. A row that asks no digit, or no form, is found for each; one that asks a
/// digit is found for none above 7.
pub fn row_of(prefix: Prefix, map: Map, opcode: u8, digit: u8, register_form: bool) -> Option<Row>
    ensures found { IfSome result (λ r. IsIn r rows × (matches r (key prefix map opcode digit register_form) ≡ true)) }
    ensures only { (r : Row) → IsIn r rows → matches r (key prefix map opcode digit register_form) ≡ true → result ≡ Some r }
{
    let entry = entry_at(prefix, map, opcode, digit % 8, register_form);
    with_digit(row_of_entry(entry), digit)
}

/// The row of a number, 0 to 305, or `None` where no row has the number.
pub fn row_numbered(number: u16) -> Option<Row>
    ensures found { IfSome result (λ r. IsIn r rows × (r.number ≡ number)) }
    ensures only { (r : Row) → IsIn r rows → r.number ≡ number → result ≡ Some r }
{
    row_placed(number)
}

fn row_placed(place: u16) -> Option<Row>
    ensures { result ≡ slice_get rows place }
{
    all_rows().get(place as usize).copied()
}

#[tactic(auto, unfolding(crate::specs::Levels::numbered))]
fn row_of_entry(entry: u16) -> Option<Row>
    ensures { result ≡ numbered entry }
{
    if entry == 0 {
        None
    } else {
        row_placed(entry - 1)
    }
}

// The row, unless it asks another digit.
fn with_digit(row: Option<Row>, digit: u8) -> Option<Row>
    ensures { result ≡ with_digit row digit }
{
    match row {
        None => None,
        Some(found) => {
            if accepts_digit(found.pattern.digit, digit) {
                row
            } else {
                None
            }
        }
    }
}

/// No key has two rows.
pub fn one_row_per_key()
    ensures { (k : Key) (r s : Row) → IsIn r rows → IsIn s rows → matches r k ≡ true → matches s k ≡ true → r ≡ s }
{}

pub(crate) fn first_match(rows: &[Row], key: Key) -> Option<Row>
    ensures { result ≡ find (λ r. matches r key) rows.now }
{
    rows.iter().copied().find(|row| is_match(row, key))
}

/// Whether the row is that of the key.
pub fn is_match(row: &Row, key: Key) -> bool
    ensures { result ≡ matches row.now key }
{
    let pattern = row.pattern;
    accepts_opcode(pattern, key.opcode)
        && accepts_prefix(pattern.prefixes, key.prefix)
        && is_map(pattern.map, key.map)
        && accepts_digit(pattern.digit, key.digit)
        && accepts_form(pattern.form, key.register_form)
}

fn accepts_prefix(prefixes: Prefixes, prefix: Prefix) -> bool
    ensures { result ≡ takes_prefix prefixes prefix }
{
    matches!(
        (prefixes, prefix),
        (Prefixes::Plain, Prefix::Plain)
            | (Prefixes::PlainOr66, Prefix::Plain | Prefix::P66)
            | (Prefixes::P66, Prefix::P66)
            | (Prefixes::PF2, Prefix::PF2)
            | (Prefixes::PF3, Prefix::PF3)
    )
}

fn is_map(map: Map, other: Map) -> bool
    ensures { result ≡ same_map map other }
{
    matches!(
        (map, other),
        (Map::One, Map::One) | (Map::Two, Map::Two) | (Map::Three, Map::Three)
    )
}

fn accepts_opcode(pattern: Pattern, opcode: u8) -> bool
    ensures { result ≡ has_opcode pattern opcode }
{
    if pattern.plus {
        opcode / 8 == pattern.opcode / 8
    } else {
        opcode == pattern.opcode
    }
}

fn accepts_digit(asked: Option<u8>, digit: u8) -> bool
    ensures { result ≡ has_digit asked digit }
{
    match asked {
        None => true,
        Some(asked) => digit == asked,
    }
}

fn accepts_form(form: Form, register_form: bool) -> bool
    ensures { result ≡ has_form form register_form }
{
    match form {
        Form::Any => true,
        Form::Memory => !register_form,
        Form::Register => register_form,
    }
}
