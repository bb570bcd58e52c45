//! What a sandbox permits.

ghost use Rattle.std.specs.Prelude.{◌≡◌, ◌≢◌, ℕ, ◌+◌, ◌-◌, ◌≤◌, ◌<◌, ◌^◌, ◌↔◌, IsTrue, Contains, true, Some, length};
ghost use Rattle.std.specs.List.{list_any};
ghost use Rattle.vw_bits.specs.Places.{in_memory};
ghost use Rattle.vw_effect.specs.Meaning.{way_of};
ghost use Rattle.vw_machine.specs.World.{IsWithin, heap_range, globals_range};
ghost use Rattle.vw_machine.specs.Step.{slot_word};
ghost use Rattle.vw_image.specs.declared.stub.Stub.{Stub as ImageStub};
ghost use Rattle.vw_layout.specs.Layout.{IsWhole};
ghost use Rattle.vw_machine.specs.Module.{view_of, is_in_table};
ghost use Rattle.vw_machine.specs.Permitted.{IsReadableAt, is_pointer, MayRead, MayWrite, StaysInside, IsCallee, IsTabled, MayDo, StubMayDo, HostMayDo, PermittedFrom, Permitted};
ghost use Rattle.vw_machine.specs.Kept.{is_marked, activation_of, state_of};
ghost use Rattle.vw_machine.specs.Found.{is_open, is_entry_to, has_entry_to, here_of_outer, here_of, IsKnownOuter, IsKnown};
ghost use Rattle.vw_machine.specs.Answers.{IsPlaced};

use crate::ranges::is_within;
use crate::standing::{Outer, Thing, function_at, host_of, stub_at};
use crate::{Event, Frame, Machine, World};
use vw_bits::{Segment, sum};
use vw_effect::{Way, way_of};
use vw_image::Word;
use vw_layout::{Module, TableEntry, TableInfo, functions_ascend};

/// How many bytes the heap's reservation has.
pub(crate) const RESERVATION: u64 = 1 << 33;

/// How many bytes the globals have.
const GLOBALS: u64 = 4_096;

/// How many bytes of guard lie below the stack.
pub(crate) const GUARD: u64 = 8_192;

/// How many bytes an entry of a table has.
const ENTRY: u64 = 16;

// Whether a byte at a place of the image is one of the table.
fn is_in_table(table: &TableInfo, place: u64) -> bool
    ensures { result ≡ is_in_table place table.now }
{
    let count = table.entries.len() as u64;
    table.address <= place && (place - table.address) / ENTRY < count
}

// Whether the byte at a place is in the memory of a segment.
fn is_in_segment(segment: &Segment, place: u64) -> bool
    ensures { result ≡ in_memory place 1 segment.now }
{
    segment.vaddr <= place && place - segment.vaddr < segment.memsz
}

// Whether the byte at a place is in the memory of one of the segments.
pub(crate) fn is_in_memory(module: &Module, place: u64) -> bool
    ensures { result ≡ list_any (in_memory place 1) «module».now.image.segments }
{
    module
        .image
        .segments()
        .iter()
        .any(|segment| is_in_segment(segment, place))
}

fn is_in_tables(module: &Module, place: u64) -> bool
    ensures { result ≡ list_any (is_in_table place) «module».now.tables }
{
    module.tables.iter().any(|table| is_in_table(table, place))
}

// Whether the byte at a place is one of the image that may be read.
fn is_open(module: &Module, place: u64) -> bool
    ensures { result ≡ is_open «module».now place }
{
    is_in_memory(module, place) && (module.image.readable(place, 1) || is_in_tables(module, place))
}

// Whether the byte at an address is one of the image that may be read.
fn is_readable(module: &Module, world: &World, address: u64) -> bool
    ensures { IsTrue result ↔ IsReadableAt (view_of «module».now) world.now address }
{
    match address.checked_sub(world.load) {
        Some(place) => is_open(module, place),
        None => false,
    }
}

// Whether each of `size` bytes from an address is one of the image that may be read.
fn are_readable(module: &Module, world: &World, at: u64, size: u32) -> bool
    requires { IsPlaced «module».now world.now }
    ensures { IsTrue result ↔ ((q : ℕ) → at ≤ q → q < at + size
        → IsReadableAt (view_of «module».now) world.now q) }
{
    for k in 0..size {
        match at.checked_add(k as u64) {
            Some(address) if is_readable(module, world, address) => {}
            _ => return false,
        }
    }
    true
}

// Whether the activation has written each of `size` bytes from an address.
fn are_written(top: &Frame, at: u64, size: u32) -> bool
    ensures { IsTrue result ↔ ((q : ℕ) → at ≤ q → q < at + size
        → (activation_of top.now).written q ≡ true) }
{
    for k in 0..size {
        match at.checked_add(k as u64) {
            Some(address) if is_marked(top, address) => {}
            _ => return false,
        }
    }
    true
}

fn is_marked(top: &Frame, address: u64) -> bool
    ensures { result ≡ is_marked top.now.written address }
{
    match top.written.get(&address) {
        Some(written) => *written,
        None => false,
    }
}

// Whether `size` bytes from an address are among the caller's 4,096 bytes above the return address.
fn is_above(top: &Frame, at: u64, size: u32) -> bool
    ensures { IsTrue result ↔ IsWithin at size
        (record { from = top.now.rsp0 + 8; to = top.now.rsp0 + 4104 }) }
{
    match at.checked_sub(top.rsp0) {
        Some(distance) => is_within(distance, size, 8, 4_104),
        None => false,
    }
}

pub(crate) fn is_instance_word(world: &World, at: u64, size: u32) -> bool
    requires { 8 ≤ world.now.heap }
    ensures { IsTrue result ↔ ((at + 8 ≡ world.now.heap) × (size ≡ 8)) }
{
    size == 8 && at == world.heap - 8
}

fn is_in_heap(world: &World, at: u64, size: u32) -> bool
    requires { world.now.heap + 2 ^ 33 < 2 ^ 64 }
    ensures { IsTrue result ↔ IsWithin at size (heap_range world.now) }
{
    is_within(at, size, world.heap, world.heap + RESERVATION)
}

fn is_in_globals(world: &World, at: u64, size: u32) -> bool
    requires { world.now.globals + 4096 < 2 ^ 64 }
    ensures { IsTrue result ↔ IsWithin at size (globals_range world.now) }
{
    is_within(at, size, world.globals, world.globals + GLOBALS)
}

fn may_read(module: &Module, world: &World, top: &Frame, at: u64, size: u32) -> bool
    requires { IsPlaced «module».now world.now }
    ensures { IsTrue result ↔ MayRead (view_of «module».now) world.now
        (activation_of top.now) at size }
{
    is_in_heap(world, at, size)
        || is_instance_word(world, at, size)
        || is_in_globals(world, at, size)
        || is_above(top, at, size)
        || are_written(top, at, size)
        || are_readable(module, world, at, size)
}

fn may_write(module: &Module, world: &World, top: &Frame, at: u64, size: u32) -> bool
    requires { IsPlaced «module».now world.now }
    ensures { IsTrue result ↔ MayWrite (view_of «module».now) world.now
        (activation_of top.now) at size }
{
    is_in_heap(world, at, size)
        || is_in_globals(world, at, size)
        || is_within(at, size, world.stack_low - GUARD, top.rsp0)
}

// Whether control stays in the code of the function that was entered last.
fn stays_inside(module: &Module, world: &World, top: &Frame, to: u64) -> bool
    requires { IsWhole «module».now }
    ensures { IsTrue result ↔ StaysInside (view_of «module».now) world.now
        (activation_of top.now) to }
{
    functions_ascend();
    match function_at(module, world, top.entry) {
        Some(function) => top.entry <= to && to - top.entry < function.size as u64,
        None => false,
    }
}

// Whether a stub begins at an address.
fn is_stub(module: &Module, world: &World, address: u64) -> bool
    requires { IsWhole «module».now }
    ensures { IsTrue result ↔ ((place : ℕ) × (stub : ImageStub) × (address ≡ world.now.load + place)
        × ((view_of «module».now).stub place ≡ Some stub)) }
{
    match stub_at(module, world, address) {
        Some(_) => true,
        None => false,
    }
}

// Whether a declared function or a stub begins at an address.
fn is_callee(module: &Module, world: &World, to: u64) -> bool
    requires { IsWhole «module».now }
    ensures { IsTrue result ↔ IsCallee (view_of «module».now) world.now to }
{
    match function_at(module, world, to) {
        Some(_) => true,
        None => is_stub(module, world, to),
    }
}

// Whether a pointer has this address in the instance.
fn is_pointer(world: &World, pointer: Word, to: u64) -> bool
    ensures { result ≡ is_pointer world.now pointer to }
{
    match pointer {
        Word::Based(place) => to == sum(world.load, place),
        Word::Bound(number) => to == host_of(world, number),
        Word::Plain(_) | Word::Mixed | Word::Outside => false,
    }
}

fn is_entry_to(world: &World, entry: &TableEntry, to: u64) -> bool
    ensures { result ≡ is_entry_to world.now to entry.now }
{
    entry.tag != u64::MAX && is_pointer(world, entry.pointer, to)
}

fn has_entry_to(world: &World, table: &TableInfo, to: u64) -> bool
    ensures { result ≡ has_entry_to world.now to table.now }
{
    table
        .entries
        .iter()
        .any(|entry| is_entry_to(world, entry, to))
}

// Whether an entry, not empty, of a declared table has this address.
fn is_tabled(module: &Module, world: &World, to: u64) -> bool
    ensures { result ≡ list_any (has_entry_to world.now to) «module».now.tables }
{
    module
        .tables
        .iter()
        .any(|table| has_entry_to(world, table, to))
}

// Whether an instruction may go to an address.
fn may_go(module: &Module, world: &World, top: &Frame, way: Way, to: u64) -> bool
    requires { IsWhole «module».now }
    ensures { IsTrue result ↔ MayDo (view_of «module».now) world.now (activation_of top.now)
        (way_of way) (Event.Goto to) }
{
    match way {
        Way::Ordinary => stays_inside(module, world, top, to),
        Way::Return => to == top.back,
        Way::Direct => is_callee(module, world, to),
        Way::Indirect => is_tabled(module, world, to),
    }
}

// Whether an instruction may read `size` bytes from an address.
fn may_read_by(module: &Module, world: &World, top: &Frame, way: Way, at: u64, size: u32) -> bool
    requires { IsPlaced «module».now world.now }
    ensures { IsTrue result ↔ MayDo (view_of «module».now) world.now (activation_of top.now)
        (way_of way) (Event.Read at size) }
{
    match way {
        Way::Return => at == top.rsp0 && size == 8,
        Way::Ordinary | Way::Direct | Way::Indirect => may_read(module, world, top, at, size),
    }
}

// Whether an instruction may write them.
fn may_write_by(module: &Module, world: &World, top: &Frame, way: Way, at: u64, size: u32) -> bool
    requires { IsPlaced «module».now world.now }
    ensures { IsTrue result ↔ MayDo (view_of «module».now) world.now (activation_of top.now)
        (way_of way) (Event.Write at size) }
{
    match way {
        Way::Ordinary | Way::Return | Way::Direct | Way::Indirect => {
            may_write(module, world, top, at, size)
        }
    }
}

fn way_permits(module: &Module, world: &World, top: &Frame, way: Way, event: Event) -> bool
    requires whole { IsWhole «module».now }
    requires placed { IsPlaced «module».now world.now }
    ensures { IsTrue result ↔ MayDo (view_of «module».now) world.now (activation_of top.now)
        (way_of way) event }
{
    match event {
        Event::Read { at, size } => may_read_by(module, world, top, way, at, size),
        Event::Write { at, size } => may_write_by(module, world, top, way, at, size),
        Event::Goto { to } => may_go(module, world, top, way, to),
    }
}

// Whether a stub may do this, whose slot holds this word.
fn stub_permits(
    module: &Module,
    world: &World,
    top: &Frame,
    slot: u64,
    word: u64,
    event: Event,
) -> bool
    requires placed { IsPlaced «module».now world.now }
    requires known { word ≡ slot_word (view_of «module».now) world.now slot }
    ensures { IsTrue result ↔ StubMayDo (view_of «module».now) world.now
        (activation_of top.now) slot event }
{
    match event {
        Event::Read { at, size } => {
            (size == 8 && at == sum(world.load, slot)) || may_read(module, world, top, at, size)
        }
        Event::Write { at, size } => may_write(module, world, top, at, size),
        Event::Goto { to } => to == word,
    }
}

fn host_permits(module: &Module, world: &World, top: &Frame, event: Event) -> bool
    requires { IsPlaced «module».now world.now }
    ensures { IsTrue result ↔ HostMayDo (view_of «module».now) world.now
        (activation_of top.now) event }
{
    match event {
        Event::Read { at, size } => may_read(module, world, top, at, size),
        Event::Write { at, size } => may_write(module, world, top, at, size),
        Event::Goto { to } => to == top.back,
    }
}

// Whether what is none of the module's code may do this.
fn outer_permits(module: &Module, world: &World, top: &Frame, outer: Outer, event: Event) -> bool
    requires placed { IsPlaced «module».now world.now }
    requires known { IsKnownOuter (view_of «module».now) world.now outer }
    ensures { IsTrue result ↔ PermittedFrom (view_of «module».now) world.now
        (activation_of top.now) (here_of_outer outer) event }
{
    match outer {
        Outer::Stub { slot, to } => stub_permits(module, world, top, slot, to, event),
        Outer::Host | Outer::Probe => host_permits(module, world, top, event),
    }
}

// Whether an event is permitted to what stands at rip.
pub(crate) fn permits(
    machine: &Machine,
    module: &Module,
    world: &World,
    thing: &Thing,
    event: Event,
) -> bool
    requires whole { IsWhole «module».now }
    requires placed { IsPlaced «module».now world.now }
    requires known { IsKnown (view_of «module».now) world.now thing.now }
    ensures { IsTrue result ↔ Permitted (view_of «module».now) world.now (state_of machine.now)
        (here_of thing.now) event }
{
    let Some(top) = machine.active.last() else {
        return false;
    };
    match thing {
        Thing::Insn(insn, _) => way_permits(module, world, top, way_of(insn), event),
        Thing::Outer(outer) => outer_permits(module, world, top, *outer, event),
        Thing::Nowhere => false,
    }
}
