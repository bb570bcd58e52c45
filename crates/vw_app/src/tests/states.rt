ghost use Rattle.std.specs.Prelude.{◌≡◌};
ghost use Rattle.vw_values.specs.Values.{IsValue};
ghost use Rattle.vw_domain.specs.Registers.{IsRegister};

use std::alloc::Global;
use std::test::Fail;
use vw_bits::{List, OutOfMemory};
use vw_domain::{
    Comparison, Content, Fact, PartsError, Register, Slot, State, StateParts, entry_state,
};
use vw_insn::Width;
use vw_lattice::Lattice;
use vw_names::Spot;
use vw_stack::Offset;
use vw_values::{Bounds, Value, Via};

// A register with this value.
fn known(value: Value) -> Register
    requires { IsValue value }
    ensures register { IsRegister result }
    ensures value { result.value ≡ value }
{
    Register {
        offset: Offset::Unknown,
        value,
    }
}

#[test]
fn joins_depths(rt: HostRuntime) -> Result<(), Fail> {
    let bounds = Bounds::new(rt.alloc(), &[])?;
    let entry = entry_state(rt.alloc())?;
    let mut state = entry.copy()?;
    state.raise(8192);
    let changed = state.join(&entry, &bounds)?;
    assert!(rt; changed);
    assert_eq!(rt; state.probed(), 0);
    Ok(())
}

#[test]
fn adds_written_bytes(rt: HostRuntime) -> Result<(), Fail> {
    let mut state = entry_state(rt.alloc())?;
    state.add_written(-16, -8)?;
    assert!(rt; state.is_written(-16, -8));
    assert!(rt; !state.is_written(-16, -7));
    Ok(())
}

// A copy of rdi in rax is HeapBase, and is rdi's for a comparison until the flags are cleared.
#[test]
fn copies_and_compares(rt: HostRuntime) -> Result<(), Fail> {
    let mut state = entry_state(rt.alloc())?;
    state.copy_to(0, Spot::Reg(7), Offset::Unknown)?;
    state.compare(Spot::Reg(0), 32, 7)?;
    assert!(rt; state.value(Spot::Reg(0)) == Value::HeapBase);
    assert!(rt; state.same(Spot::Flags, Spot::Reg(7)));
    let mut other = entry_state(rt.alloc())?;
    other.copy_from(&state)?;
    assert!(rt; other.leq(&state) && state.leq(&other));
    let bounds = Bounds::new(rt.alloc(), &[])?;
    let copy = state.copy_in(Some(other))?;
    assert!(rt; copy.is_same(&state, &bounds));
    assert!(rt; copy.lands_below(&state, &bounds) && state.lands_below(&copy, &bounds));
    state.clear_flags();
    assert!(rt; !copy.is_same(&state, &bounds));
    assert!(rt; copy.lands_below(&state, &bounds) && !state.lands_below(&copy, &bounds));
    assert!(rt; !state.same(Spot::Flags, Spot::Reg(7)));
    Ok(())
}

// A state is not the same, and does not land, where the bound of its value is not among those of the function.
#[test]
fn names_bounds(rt: HostRuntime) -> Result<(), Fail> {
    let few = Bounds::new(rt.alloc(), &[])?;
    let more = Bounds::new(rt.alloc(), &[10])?;
    let mut state = entry_state(rt.alloc())?;
    state.write(0, known(Value::Below(10)));
    let copy = state.copy()?;
    assert!(rt; copy.is_same(&state, &more) && copy.lands_below(&state, &more));
    assert!(rt; !copy.is_same(&state, &few) && !copy.lands_below(&state, &few));
    Ok(())
}

// A register that is written leaves its class.
#[test]
fn writes_registers(rt: HostRuntime) -> Result<(), Fail> {
    let mut state = entry_state(rt.alloc())?;
    state.copy_to(0, Spot::Reg(7), Offset::Unknown)?;
    state.write(0, known(Value::Num));
    assert!(rt; !state.same(Spot::Reg(0), Spot::Reg(7)));
    state.lose_slots();
    assert_eq!(rt; state.size(-8), 0);
    Ok(())
}

// A slot of a register's number holds its value and is in its class. One byte that is written there takes it out.
#[test]
fn stores_bytes(rt: HostRuntime) -> Result<(), Fail> {
    let mut state = entry_state(rt.alloc())?;
    state.store(-16, 8, Content::Copy(7))?;
    assert!(rt; state.value(Spot::Slot(-16)) == Value::HeapBase);
    assert!(rt; state.same(Spot::Slot(-16), Spot::Reg(7)));
    state.store(-9, 1, Content::Nothing)?;
    assert_eq!(rt; state.size(-16), 0);
    Ok(())
}

// A call writes its return address, loses slots below rsp, and keeps rbx.
#[test]
fn calls_functions(rt: HostRuntime) -> Result<(), Fail> {
    let mut state = entry_state(rt.alloc())?;
    state.store(-16, 8, Content::Copy(7))?;
    state.call()?;
    state.finish();
    assert_eq!(rt; state.size(-16), 0);
    assert!(rt; state.value(Spot::Reg(3)) == Value::Entry(3));
    assert!(rt; state.is_written(-8, 0));
    Ok(())
}

// The parts of the state at the entry, of which a test changes one.
fn entry_parts(alloc: Global) -> Result<StateParts, OutOfMemory> {
    entry_state(alloc)?.parts()
}

// The state with these parts, and None where no state has them.
fn state_of(alloc: Global, parts: &StateParts) -> Result<Option<State>, OutOfMemory> {
    match State::of(alloc, parts) {
        Ok(state) => Ok(Some(state)),
        Err(PartsError::NotAState) => Ok(None),
        Err(PartsError::Memory(error)) => Err(error),
    }
}

fn is_made(alloc: Global, parts: &StateParts) -> Result<bool, OutOfMemory> {
    Ok(state_of(alloc, parts)?.is_some())
}

// The state at the entry, with a slot at -8, and where it is compared, with rax in the class of the flags.
fn with_slot(
    alloc: Global,
    size: u8,
    value: Value,
    is_compared: bool,
) -> Result<Option<State>, OutOfMemory> {
    let mut parts = entry_parts(alloc)?;
    parts.slots.push(Slot {
        offset: -8,
        size,
        value,
    })?;
    if is_compared {
        let mut class = List::new(alloc);
        class.push(Spot::Reg(0))?;
        class.push(Spot::Flags)?;
        parts.classes.push(class)?;
    }
    parts.fact = Fact::Compare { w: 32, k: 7 };
    state_of(alloc, &parts)
}

// A slot with a lesser value and one class more say more. Slots of different sizes say different things.
#[test]
fn orders_slots_and_classes(rt: HostRuntime) -> Result<(), Fail> {
    let alloc = rt.alloc();
    let three = with_slot(alloc, 8, Value::Const(3), true)?;
    let any = with_slot(alloc, 8, Value::Num, false)?;
    let short = with_slot(alloc, 4, Value::Const(3), true)?;
    let (Some(three), Some(any), Some(short)) = (three, any, short) else {
        return Err(Fail::new("no state has these parts"));
    };
    assert!(rt; three.leq(&any));
    assert!(rt; !any.leq(&three));
    assert!(rt; !three.leq(&short));
    Ok(())
}

// Whether a state has a number in each register, and rax at this offset.
fn has_offset(alloc: Global, offset: i64) -> Result<bool, OutOfMemory> {
    let mut parts = entry_parts(alloc)?;
    parts.offsets.truncate(0);
    parts.offsets.push(Some(offset))?;
    for _ in 1..16 {
        parts.offsets.push(None)?;
    }
    is_made(alloc, &parts)
}

fn has_ranges(alloc: Global, ranges: &[(i64, i64)]) -> Result<bool, OutOfMemory> {
    let mut parts = entry_parts(alloc)?;
    for range in ranges {
        parts.written.push(*range)?;
    }
    is_made(alloc, &parts)
}

fn has_class(alloc: Global, places: &[Spot]) -> Result<bool, OutOfMemory> {
    let mut parts = entry_parts(alloc)?;
    let mut class = List::new(alloc);
    for place in places {
        class.push(*place)?;
    }
    parts.classes.push(class)?;
    is_made(alloc, &parts)
}

#[test]
fn gives_parts(rt: HostRuntime) -> Result<(), Fail> {
    let parts = entry_parts(rt.alloc())?;
    assert!(rt; parts.values.as_slice().get(7).copied() == Some(Value::HeapBase));
    assert!(rt; parts.offsets.as_slice().get(4).copied() == Some(Some(0)));
    assert!(rt; is_made(rt.alloc(), &parts)?);
    Ok(())
}

#[test]
fn bounds_offsets(rt: HostRuntime) -> Result<(), Fail> {
    assert!(rt; has_offset(rt.alloc(), 0x8000_0000)?);
    assert!(rt; !has_offset(rt.alloc(), 0x8000_0001)?);
    assert!(rt; !has_offset(rt.alloc(), -0x8000_0001)?);
    Ok(())
}

#[test]
fn bounds_ranges(rt: HostRuntime) -> Result<(), Fail> {
    assert!(rt; has_ranges(rt.alloc(), &[(-0x1_0000_0000, -16), (-8, -1)])?);
    assert!(rt; !has_ranges(rt.alloc(), &[(-0x1_0000_0001, -1)])?);
    assert!(rt; !has_ranges(rt.alloc(), &[(-8, 0)])?);
    Ok(())
}

#[test]
fn keeps_ranges_apart(rt: HostRuntime) -> Result<(), Fail> {
    assert!(rt; !has_ranges(rt.alloc(), &[(-16, -8), (-10, -1)])?);
    assert!(rt; !has_ranges(rt.alloc(), &[(-16, -9), (-8, -1)])?);
    assert!(rt; has_ranges(rt.alloc(), &[(-16, -10), (-8, -1)])?);
    Ok(())
}

#[test]
fn bounds_classes(rt: HostRuntime) -> Result<(), Fail> {
    assert!(rt; has_class(rt.alloc(), &[Spot::Reg(0), Spot::Flags])?);
    assert!(rt; !has_class(rt.alloc(), &[Spot::Reg(0)])?);
    assert!(rt; !has_class(rt.alloc(), &[Spot::Reg(0), Spot::Slot(-8)])?);
    Ok(())
}

fn has_slots(alloc: Global, slots: &[Slot]) -> Result<bool, OutOfMemory> {
    let mut parts = entry_parts(alloc)?;
    for slot in slots {
        parts.slots.push(*slot)?;
    }
    is_made(alloc, &parts)
}

// Slots may overlap, but each offset has one, and a slot of 4 bytes holds no value but a number of 32 bits.
#[test]
fn bounds_slots(rt: HostRuntime) -> Result<(), Fail> {
    let wide = Slot {
        offset: -16,
        size: 8,
        value: Value::Num,
    };
    let narrow = Slot {
        offset: -12,
        size: 4,
        value: Value::Const(0xFFFF_FFFF),
    };
    let same = Slot {
        offset: -16,
        size: 4,
        value: Value::Const(0),
    };
    assert!(rt; has_slots(rt.alloc(), &[wide, narrow])?);
    assert!(rt; !has_slots(rt.alloc(), &[wide, same])?);
    assert!(rt; !has_slots(rt.alloc(), &[narrow, wide])?);
    Ok(())
}

// A probe of 4,096 bytes keeps rax, writes its return address, and loses slots below rsp.
#[test]
fn probes_stacks(rt: HostRuntime) -> Result<(), Fail> {
    let mut state = entry_state(rt.alloc())?;
    state.write(0, known(Value::Const(4096)));
    state.store(-16, 8, Content::Copy(7))?;
    state.call_probe()?;
    assert_eq!(rt; state.probed(), 4096);
    assert!(rt; state.value(Spot::Reg(0)) == Value::Const(4096));
    assert!(rt; state.is_written(-8, 0));
    assert_eq!(rt; state.size(-16), 0);
    Ok(())
}

// An entry of table 2 is in rcx and its tag in rax, which is compared with 7.
fn compared_tag(alloc: Global) -> Result<State, OutOfMemory> {
    let mut state = entry_state(alloc)?;
    state.write(1, known(Value::EntryPtr(2)));
    state.write(
        0,
        known(Value::TagOf {
            table: 2,
            via: Via::At(1),
        }),
    );
    state.compare(Spot::Reg(0), 32, 7)?;
    Ok(state)
}

// Where the tag is 7, the entry has it, and no way goes on where it is 8 too. Where the tag is less, nothing is told.
#[test]
fn takes_tags(rt: HostRuntime) -> Result<(), Fail> {
    let bounds = Bounds::new(rt.alloc(), &[])?;
    let mut state = compared_tag(rt.alloc())?;
    let width = Width::W32;
    assert!(rt; state.fits(&bounds));
    assert!(rt; state.take_edge(Comparison::Below { width, k: 7 }, &bounds));
    assert!(rt; state.value(Spot::Reg(1)) == Value::EntryPtr(2));
    assert!(rt; state.take_edge(Comparison::Equal { width, k: 7 }, &bounds));
    assert!(rt; state.value(Spot::Reg(1)) == Value::EntryTyped { table: 2, tag: 7 });
    assert!(rt; !state.take_edge(Comparison::Equal { width, k: 8 }, &bounds));
    Ok(())
}

// Numbers in the class of the flags are refined, and none is 7 that is below 7.
#[test]
fn takes_numbers(rt: HostRuntime) -> Result<(), Fail> {
    let bounds = Bounds::new(rt.alloc(), &[])?;
    let mut state = entry_state(rt.alloc())?;
    let width = Width::W64;
    state.compare(Spot::Reg(2), 64, 7)?;
    assert!(rt; state.fits(&bounds));
    assert!(rt; state.take_edge(Comparison::Below { width, k: 7 }, &bounds));
    assert!(rt; state.value(Spot::Reg(2)) == Value::Below(8));
    assert!(rt; state.take_edge(Comparison::Equal { width, k: 7 }, &bounds));
    assert!(rt; state.value(Spot::Reg(2)) == Value::Const(7));
    assert!(rt; !state.take_edge(Comparison::Below { width, k: 7 }, &bounds));
    Ok(())
}
