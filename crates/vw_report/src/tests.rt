use crate::{ReportError, decimal_of, read_report, write_report};
use std::alloc::Global;
use std::test::Fail;
use vw_bits::{List, OutOfMemory, Text};
use vw_domain::{Fact, PartsError, Slot, State, StateParts, entry_state};
use vw_names::Spot;
use vw_state::{FunctionTable, PointState, Tables};
use vw_values::{Value, Via};

// The tables of one function with one state at its entry.
fn tables_of(alloc: Global, entry: u64, at: u32, state: State) -> Result<Tables, OutOfMemory> {
    let mut states = List::new(alloc);
    states.push(PointState { at, state })?;
    let mut functions = List::new(alloc);
    functions.push(FunctionTable { entry, states })?;
    Ok(Tables { functions })
}

// The report of an endless loop at 0x78: what is known at a function's entry.
#[test]
fn prints_the_entry_state(rt: HostRuntime) -> Result<(), Fail> {
    let alloc = rt.alloc();
    let tables = tables_of(alloc, 0x78, 0, entry_state(alloc)?)?;
    let text = write_report(alloc, &tables)?;
    assert!(rt;
        text.as_slice()
            == b"veriwasm report 1\nfunction 0000000000000078\nat 00000000 p0 orsp=+0 vrax=num vrcx=num vrdx=num vrbx=entry:rbx vrbp=entry:rbp vrsi=num vrdi=heapbase vr8=num vr9=num vr10=num vr11=num vr12=entry:r12 vr13=entry:r13 vr14=entry:r14 vr15=entry:r15\nend\n".as_slice()
    );
    Ok(())
}

// Digits of numbers up to 2^64 - 1; 2^64, no digits, a leading zero, signs, and bytes that are no digits.
#[test]
fn decimals(rt: HostRuntime) -> Result<(), Fail> {
    for (text, number) in [
        ("0", Some(0)),
        ("7", Some(7)),
        ("65536", Some(65_536)),
        ("18446744073709551615", Some(u64::MAX)),
        ("18446744073709551616", None),
        ("", None),
        ("00", None),
        ("01", None),
        ("+1", None),
        ("-1", None),
        ("1 ", None),
        ("1a", None),
    ] {
        assert_eq!(rt; decimal_of(text.as_bytes()), number);
    }
    Ok(())
}

fn no_offsets(alloc: Global) -> Result<List<Option<i64>>, OutOfMemory> {
    let mut offsets = List::new(alloc);
    for _ in 0..16 {
        offsets.push(None)?;
    }
    Ok(offsets)
}

// Sixteen values, one of each kind but two.
fn many_values(alloc: Global) -> Result<List<Value>, OutOfMemory> {
    let mut values = List::new(alloc);
    values.push(Value::Any)?;
    values.push(Value::Const(0xff))?;
    values.push(Value::Below(8589934592))?;
    values.push(Value::Low(10))?;
    values.push(Value::Both(11))?;
    values.push(Value::HeapAddr)?;
    values.push(Value::Globals)?;
    values.push(Value::Image(0xffff_ffff_ffff_fff0))?;
    values.push(Value::Index16 { k: 4, mark: None })?;
    values.push(Value::Index16 {
        k: 65536,
        mark: Some((0, 5)),
    })?;
    values.push(Value::EntryPtr(63))?;
    values.push(Value::EntryTyped { table: 2, tag: 0 })?;
    values.push(Value::TagOf {
        table: 0,
        via: Via::At(15),
    })?;
    values.push(Value::TagOf {
        table: 3,
        via: Via::Idx(8),
    })?;
    values.push(Value::TableFn { table: 1, tag: 7 })?;
    values.push(Value::JumpOff { a: 16, k: 4 })?;
    Ok(values)
}

// Two slots, two ranges, and a class of the flags and a slot.
fn many_parts(alloc: Global) -> Result<StateParts, OutOfMemory> {
    let mut slots = List::new(alloc);
    slots.push(Slot {
        offset: -16,
        size: 8,
        value: Value::JumpDest { a: 1, k: 1 },
    })?;
    slots.push(Slot {
        offset: 8,
        size: 4,
        value: Value::Below(4294967296),
    })?;
    let mut written = List::new(alloc);
    written.push((-24, -17))?;
    written.push((-8, -8))?;
    let mut places = List::new(alloc);
    places.push(Spot::Reg(3))?;
    places.push(Spot::Flags)?;
    places.push(Spot::Slot(8))?;
    let mut classes = List::new(alloc);
    classes.push(places)?;
    Ok(StateParts {
        offsets: no_offsets(alloc)?,
        values: many_values(alloc)?,
        probed: 4294967296,
        written,
        slots,
        classes,
        fact: Fact::Compare {
            w: 64,
            k: 18446744073709551615,
        },
    })
}

// Each kind of field, in its order.
#[test]
fn prints_each_field(rt: HostRuntime) -> Result<(), Fail> {
    let alloc = rt.alloc();
    let parts = many_parts(alloc)?;
    match State::of(alloc, &parts) {
        Err(PartsError::Memory(refused)) => return Err(refused.into()),
        Err(PartsError::NotAState) => assert!(rt; false),
        Ok(state) => {
            let tables = tables_of(alloc, 0xffff_ffff_ffff_ffff, 0xabcdef, state)?;
            let text = write_report(alloc, &tables)?;
            assert!(rt;
                text.as_slice()
                    == b"veriwasm report 1\nfunction ffffffffffffffff\nat 00abcdef p4294967296 vrcx=const:00000000000000ff vrdx=below:8589934592 vrbx=low:10 vrsp=both:11 vrbp=heapaddr vrsi=globals vrdi=image:fffffffffffffff0 vr8=index:4 vr9=index:65536:0:5 vr10=entryptr:63 vr11=entrytyped:2:0 vr12=tag:0:at:r15 vr13=tag:3:idx:r8 vr14=tablefn:1:7 vr15=jumpoff:0000000000000010:4 s-16/8=jumpdest:0000000000000001:1 s+8/4=below:4294967296 erbx=flags=s+8 f64:18446744073709551615 w-24:-17 w-8:-8\nend\n".as_slice()
            );
        }
    }
    Ok(())
}

// What is read of a text: the line of the fault, 0 where there is none.
pub fn fault(alloc: Global, text: &[u8]) -> Result<u64, OutOfMemory> {
    match read_report(alloc, text) {
        Ok(_) => Ok(0),
        Err(ReportError::Fault { line }) => Ok(line),
        Err(ReportError::Memory(refused)) => Err(refused),
    }
}

// The line of the fault in a report of one point with these fields.
fn fault_in(alloc: Global, fields: &[u8]) -> Result<u64, OutOfMemory> {
    let mut text = Text::new(alloc);
    text.push(b"veriwasm report 1\nfunction 0000000000000078\nat 00000000")?;
    text.push(fields)?;
    text.push(b"\nend\n")?;
    fault(alloc, text.as_slice())
}

// What is written is read, and the tables read are written so again.
#[test]
fn reads_what_is_written(rt: HostRuntime) -> Result<(), Fail> {
    let alloc = rt.alloc();
    let parts = many_parts(alloc)?;
    match State::of(alloc, &parts) {
        Err(PartsError::Memory(refused)) => return Err(refused.into()),
        Err(PartsError::NotAState) => assert!(rt; false),
        Ok(state) => {
            let tables = tables_of(alloc, 0xffff_ffff_ffff_ffff, 0xabcdef, state)?;
            let text = write_report(alloc, &tables)?;
            match read_report(alloc, text.as_slice()) {
                Err(_) => assert!(rt; false),
                Ok(read) => {
                    let again = write_report(alloc, &read)?;
                    assert!(rt; again.as_slice() == text.as_slice());
                }
            }
        }
    }
    Ok(())
}

// Fields that no state's text has, each in the third line, and some that one has.
#[test]
fn refuses_fields(rt: HostRuntime) -> Result<(), Fail> {
    let alloc = rt.alloc();
    let good: [&[u8]; 4] = [
        b" p0",
        b" p0 orsp=+0 vrax=num",
        b" p0 s-8/4=const:00000000ffffffff eflags=s-8 f32:7",
        b" p0 w-8:-1",
    ];
    for i in 0..4 {
        assert_eq!(rt; fault_in(alloc, good[i])?, 0);
    }
    let bad: [&[u8]; 24] = [
        b"  p0",
        b" p0  orsp=+0",
        b" p00",
        b" p4294967297",
        b" p0 ",
        b" p0 orsp=0",
        b" p0 orsp=-0",
        b" p0 orsp=+08",
        b" p0 orsp=+2147483649",
        b" p0 vrax=num orsp=+0",
        b" p0 vrcx=num vrax=num",
        b" p0 vrax=any",
        b" p0 vrax=const:00000000000000FF",
        b" p0 vrax=const:ff",
        b" p0 vrax=below:0",
        b" p0 vrax=entryptr:64",
        b" p0 s-8/4=const:0000000100000000",
        b" p0 s-8/2=num",
        b" p0 s-8/8=num s-16/8=num",
        b" p0 erdx=rbx erax=rcx",
        b" p0 erax",
        b" p0 erax=rcx eflags=s-8",
        b" p0 w-16:-9 w-8:-1",
        b" p0 f16:7",
    ];
    for i in 0..24 {
        assert_eq!(rt; fault_in(alloc, bad[i])?, 3);
    }
    Ok(())
}

// Faults by their lines: texts that end too soon, lines that are repeated or follow the end.
#[test]
fn counts_lines(rt: HostRuntime) -> Result<(), Fail> {
    let alloc = rt.alloc();
    let cases: [(u64, &[u8]); 14] = [
        (1, b""),
        (1, b"veriwasm report 1"),
        (1, b"veriwasm report 3\nend\n"),
        (2, b"veriwasm report 1\n"),
        (0, b"veriwasm report 1\nend\n"),
        (2, b"veriwasm report 1\nend"),
        (3, b"veriwasm report 1\nend\n\n"),
        (2, b"veriwasm report 1\nat 00000000 p0\nend\n"),
        (2, b"veriwasm report 1\nfunction 000000000000007A\nend\n"),
        (3, b"veriwasm report 1\nfunction 0000000000000078\n"),
        (
            3,
            b"veriwasm report 1\nfunction 0000000000000078\nfunction 0000000000000078\nend\n",
        ),
        (
            0,
            b"veriwasm report 1\nfunction 0000000000000078\nfunction 0000000000000079\nend\n",
        ),
        (
            4,
            b"veriwasm report 1\nfunction 0000000000000078\nat 00000000 p0\n",
        ),
        (
            4,
            b"veriwasm report 1\nfunction 0000000000000078\nat 00000001 p0\nat 00000001 p0\nend\n",
        ),
    ];
    for i in 0..14 {
        assert_eq!(rt; fault(alloc, cases[i].1)?, cases[i].0);
    }
    Ok(())
}
