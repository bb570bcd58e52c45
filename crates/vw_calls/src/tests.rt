use crate::{EntryRef, entry_of};
use std::alloc::{AllocError, Global};
use std::test::Fail;
use vw_values::{TableList, Value, Via};

/// What is known of a base and of an index, the displacement, and the place that the operand names: a table, a tag and a
/// distance.
type Case = (Value, Option<Value>, i32, Option<(u32, Option<u64>, u32)>);

/// Four entries at 0x1000, sixteen at 0x2000, and eight at 0x1000 again.
const TABLES: [(u64, u64); 3] = [(0x1000, 4), (0x2000, 16), (0x1000, 8)];

const FIRST: Value = Value::Image(0x1000);

const SECOND: Value = Value::Image(0x2000);

const FOUR: Value = Value::Index16 { k: 4, mark: None };

const FIVE: Value = Value::Index16 { k: 5, mark: None };

const MARKED: Value = Value::Index16 {
    k: 4,
    mark: Some((0, 7)),
};

const TYPED: Value = Value::EntryTyped { table: 5, tag: 9 };

const CASES: [Case; 29] = [
    // a table and the distance of an entry, in either order, with and without a displacement
    (FIRST, Some(FOUR), 0, Some((0, None, 0))),
    (FOUR, Some(FIRST), 0, Some((0, None, 0))),
    (FIRST, Some(FOUR), 8, Some((0, None, 8))),
    (FIRST, Some(FOUR), 0x7fff_ffff, Some((0, None, 0x7fff_ffff))),
    (FIRST, Some(FOUR), -1, None),
    (FIRST, Some(FOUR), -0x8000_0000, None),
    // a bound past the length of the first table with the address; the longer one behind it does not count
    (FIRST, Some(FIVE), 0, None),
    (FIVE, Some(FIRST), 0, None),
    (SECOND, Some(FIVE), 0, Some((1, None, 0))),
    (
        SECOND,
        Some(Value::Index16 { k: 16, mark: None }),
        16,
        Some((1, None, 16)),
    ),
    (SECOND, Some(Value::Index16 { k: 17, mark: None }), 16, None),
    // a mark is the tag of an entry of the table that it names
    (FIRST, Some(MARKED), 8, Some((0, Some(7), 8))),
    (MARKED, Some(FIRST), 8, Some((0, Some(7), 8))),
    (SECOND, Some(MARKED), 8, Some((1, None, 8))),
    // no table at the address, no distance of an entry
    (Value::Image(0x1010), Some(FOUR), 0, None),
    (FIRST, Some(Value::Const(0)), 0, None),
    (FIRST, Some(Value::Below(4)), 0, None),
    (FIRST, Some(Value::JumpOff { a: 0x1000, k: 4 }), 0, None),
    // pointers to entries
    (Value::EntryPtr(3), None, 8, Some((3, None, 8))),
    (TYPED, None, 0, Some((5, Some(9), 0))),
    (TYPED, None, 8, Some((5, Some(9), 8))),
    (TYPED, None, -8, None),
    // and no index behind them
    (Value::EntryPtr(3), Some(Value::Const(0)), 8, None),
    (TYPED, Some(FOUR), 8, None),
    (FIRST, Some(TYPED), 8, None),
    // no other value is a pointer to an entry
    (FIRST, None, 0, None),
    (FOUR, None, 0, None),
    (Value::TableFn { table: 0, tag: 7 }, None, 0, None),
    (
        Value::TagOf {
            table: 0,
            via: Via::At(0),
        },
        None,
        0,
        None,
    ),
];

/// The tables as a list, where memory is not refused.
fn tables(alloc: Global) -> Result<TableList, AllocError> {
    let mut tables = vec![in alloc; (0u64, 0u64); TABLES.len()]?;
    for (place, table) in tables.iter_mut().zip(TABLES.iter()) {
        *place = *table;
    }
    Ok(TableList::from_vec(tables))
}

#[test]
fn operands_name_entries(rt: HostRuntime) -> Result<(), Fail> {
    let tables = tables(rt.alloc())?;
    if tables.as_slice().len() > 64 {
        return Err("at most 64 tables".into());
    }
    for (base, index, disp, place) in CASES.iter() {
        let expected = place.map(|(table, tag, disp)| EntryRef { table, tag, disp });
        assert!(rt;
            entry_of(*base, *index, *disp, &tables) == expected,
            "an operand with the displacement {disp}"
        );
    }
    Ok(())
}
