//! What the levels are measured by: the search that they spare.
ghost use Rattle.std.specs.Prelude.{◌≡◌, true, IfSome};
ghost use Rattle.vw_rows.specs.declared.forms.Row.{Row};
ghost use Rattle.vw_rows.specs.Rows.{rows};
ghost use Rattle.vw_rows.specs.Lookup.{IsIn, key, matches};

use crate::lookup::first_match;
use crate::tables::all_rows;
use crate::{Key, Map, Prefix, Row};

/// The row that `row_of` answers, by a search of the rows in their order.
pub fn row_search(
    prefix: Prefix,
    map: Map,
    opcode: u8,
    digit: u8,
    register_form: bool,
) -> Option<Row>
    ensures found { IfSome result (λ r. IsIn r rows × (matches r (key prefix map opcode digit register_form) ≡ true)) }
    ensures only { (r : Row) → IsIn r rows → matches r (key prefix map opcode digit register_form) ≡ true → result ≡ Some r }
{
    let key = Key {
        prefix,
        map,
        opcode,
        digit,
        register_form,
    };
    first_match(all_rows(), key)
}
