//! What stands at rip.

ghost use Rattle.std.specs.Prelude.{◌≡◌, ◌≢◌, ℕ, ◌+◌, ◌≤◌, ◌<◌, ◌==◌, position, IfSome, IfNone, Contains, Some, slice_get, slice_index, length};
ghost use Rattle.vw_image.specs.declared.stub.Stub.{Stub as ImageStub};
ghost use Rattle.vw_layout.specs.declared.functions.Function.{Function as Declared};
ghost use Rattle.vw_layout.specs.Calls.{is_destination};
ghost use Rattle.vw_layout.specs.Layout.{IsWhole};
ghost use Rattle.vw_machine.specs.Module.{view_of};
ghost use Rattle.vw_machine.specs.Standing.{IsInside, StandsFor, StandsAt};
ghost use Rattle.vw_machine.specs.Step.{slot_word};
ghost use Rattle.vw_machine.specs.Kept.{activation_of, state_of};
ghost use Rattle.vw_machine.specs.Found.{IsPositionOf, here_of, IsKnown, IsHostThing};
ghost use Rattle.vw_machine.specs.Answers.{IsPlaced};

use crate::{Frame, Machine, World};
use vw_bits::sum;
use vw_decode::decode;
use vw_image::{
    Stub, StubTo, code_is_settled, file_bytes_are_memory, segments_are_bounded, words_spell,
};
use vw_insn::Insn;
use vw_layout::{Function, Module, functions_are_code, functions_ascend, imports_are_few};

// What stands at rip.
#[derive(Clone, Copy)]
pub(crate) enum Thing {
    // An instruction of this length.
    Insn(Insn, u32),
    Outer(Outer),
    Nowhere,
}

// What is none of the code of the module's functions.
#[derive(Clone, Copy)]
pub(crate) enum Outer {
    // A stub, with its slot and the word in it.
    Stub { slot: u64, to: u64 },
    // A function of the host, but not the probe.
    Host,
    // The host's function that probes the stack.
    Probe,
}

// Where rip lies, seen from the function whose code it may be.
enum Position {
    Outside,
    // Inside, and nothing is spelled there.
    Unspelled,
    Spelled(Insn, u32),
}

// The declared function that begins at a place of the image.
fn function_with_entry(module: &Module, place: u64) -> Option<&Function>
    requires { IsWhole «module».now }
    ensures some { IfSome result (λ f. Contains «module».now.functions f.now
        × (f.now.entry ≡ place)) }
    ensures none { IfNone result ((f : Declared) → Contains «module».now.functions f
        → f.entry ≢ place) }
{
    match module.function_at(place) {
        Some(number) => Some(&module.functions.as_slice()[number as usize]),
        None => None,
    }
}

// The declared function that begins at an address of an instance.
pub(crate) fn function_at<'a>(
    module: &'a Module,
    world: &World,
    address: u64,
) -> Option<&'a Function>
    requires { IsWhole «module».now }
    ensures some { IfSome result (λ f. Contains «module».now.functions f.now
        × (address ≡ world.now.load + f.now.entry)) }
    ensures none { IfNone result ((f : Declared) → Contains «module».now.functions f
        → address ≢ world.now.load + f.entry) }
{
    match address.checked_sub(world.load) {
        Some(place) => function_with_entry(module, place),
        None => None,
    }
}

// The address at which the function with a number begins in an instance.
pub(crate) fn entry_of(module: &Module, world: &World, number: u32) -> u64
    requires whole { IsWhole «module».now }
    requires placed { IsPlaced «module».now world.now }
    requires declared { number < length «module».now.functions }
    ensures { (f : Declared) → slice_get «module».now.functions number ≡ Some f
        → result ≡ world.now.load + f.entry }
{
    functions_are_code();
    segments_are_bounded();
    let _ = module.image.segments();
    world.load + module.functions.as_slice()[number as usize].entry
}

// What is spelled at a point of the function that was entered last.
fn spelled_in(
    module: &Module,
    world: &World,
    top: &Frame,
    function: &Function,
    point: u64,
) -> Position
    requires whole { IsWhole «module».now }
    requires placed { IsPlaced «module».now world.now }
    requires listed { Contains «module».now.functions function.now }
    requires entered { top.now.entry ≡ world.now.load + function.now.entry }
    requires inside { point < function.now.size }
    ensures { IsPositionOf (view_of «module».now) world.now (activation_of top.now)
        (top.now.entry + point) result }
{
    functions_are_code();
    functions_ascend();
    segments_are_bounded();
    code_is_settled();
    file_bytes_are_memory();
    let _ = module.image.segments();
    let rest = function.size as u64 - point;
    match module.image.bytes_at(function.entry + point, rest) {
        Some(code) => match decode(code) {
            Some((insn, len)) => Position::Spelled(insn, len as u32),
            None => Position::Unspelled,
        },
        None => Position::Unspelled,
    }
}

// Where rip lies, seen from the function that was entered last.
fn position_of(module: &Module, world: &World, top: &Frame, rip: u64) -> Position
    requires whole { IsWhole «module».now }
    requires placed { IsPlaced «module».now world.now }
    ensures { IsPositionOf (view_of «module».now) world.now (activation_of top.now) rip result }
{
    functions_ascend();
    let Some(function) = function_at(module, world, top.entry) else {
        return Position::Outside;
    };
    if rip < top.entry || function.size as u64 <= rip - top.entry {
        return Position::Outside;
    }
    spelled_in(module, world, top, function, rip - top.entry)
}

// Whether a stub goes to code.
fn goes_to_code(module: &Module, to: StubTo) -> bool
    requires { IsWhole «module».now }
    ensures { result ≡ is_destination «module».now.functions to }
{
    match to {
        StubTo::Import(_) => true,
        StubTo::Inside(entry) => module.function_at(entry).is_some(),
    }
}

// The stub of the module at a place of the image.
#[tactic(auto, unfolding(vw_layout::specs::Calls::module_stub))]
fn stub_with_place(module: &Module, place: u64) -> Option<Stub>
    requires { IsWhole «module».now }
    ensures { result ≡ (view_of «module».now).stub place }
{
    match module.image.stub_at(place) {
        Some(stub) => {
            if goes_to_code(module, stub.to) {
                Some(stub)
            } else {
                None
            }
        }
        None => None,
    }
}

// The stub of the module at an address of an instance.
pub(crate) fn stub_at(module: &Module, world: &World, address: u64) -> Option<Stub>
    requires { IsWhole «module».now }
    ensures some { IfSome result (λ stub. (place : ℕ) × (address ≡ world.now.load + place)
        × ((view_of «module».now).stub place ≡ Some stub)) }
    ensures none { IfNone result ((place : ℕ) (stub : ImageStub) → address ≡ world.now.load + place
        → (view_of «module».now).stub place ≢ Some stub) }
{
    match address.checked_sub(world.load) {
        Some(place) => stub_with_place(module, place),
        None => None,
    }
}

// The word in a stub's slot.
fn word_in_slot(module: &Module, world: &World, place: u64, stub: Stub) -> u64
    requires placed { IsPlaced «module».now world.now }
    requires there { (view_of «module».now).stub place ≡ Some stub }
    ensures { result ≡ slot_word (view_of «module».now) world.now stub.slot }
{
    words_spell();
    let _ = module.image.segments();
    match stub.to {
        StubTo::Import(number) => host_of(world, number),
        StubTo::Inside(to) => sum(world.load, to),
    }
}

// The address of the host's function for an import.
pub(crate) fn host_of(world: &World, number: u32) -> u64
    ensures { result ≡ slice_index world.now.hosts number }
{
    match world.hosts.as_slice().get(number as usize) {
        Some(host) => *host,
        None => 0,
    }
}

const PROBE: [u8; 16] = *b"lucet_probestack";

// Whether an import is the one that probes the stack.
fn is_probe(module: &Module, number: u32) -> bool
    requires { number < length «module».now.image.imports }
    ensures { result ≡ (view_of «module».now).is_probe number }
{
    module.image.imports().name(number) == PROBE.as_slice()
}

// The number of the import whose function in the host is at an address.
fn import_at(world: &World, address: u64) -> Option<u32>
    requires { length world.now.hosts ≤ 65536 }
    ensures some { IfSome result (λ number. slice_get world.now.hosts number ≡ Some address) }
    ensures none { IfNone result ((number : ℕ) → slice_get world.now.hosts number ≢ Some address) }
{
    match place_in(world.hosts.as_slice(), address) {
        Some(number) => Some(number as u32),
        None => None,
    }
}

// Where a number stands in a list.
fn place_in(numbers: &[u64], number: u64) -> Option<usize>
    ensures { result ≡ position (λ n. n == number) numbers.now }
{
    numbers.iter().position(|n| *n == number)
}

// Which function of the host is at an address.
fn host_at(module: &Module, world: &World, rip: u64) -> Thing
    requires whole { IsWhole «module».now }
    requires placed { IsPlaced «module».now world.now }
    ensures { IsHostThing (view_of «module».now) world.now rip result }
{
    imports_are_few();
    match import_at(world, rip) {
        Some(number) => {
            if is_probe(module, number) {
                Thing::Outer(Outer::Probe)
            } else {
                Thing::Outer(Outer::Host)
            }
        }
        None => Thing::Nowhere,
    }
}

// What stands at rip outside the function that was entered last.
fn thing_outside(module: &Module, world: &World, top: &Frame, rip: u64) -> Thing
    requires whole { IsWhole «module».now }
    requires placed { IsPlaced «module».now world.now }
    requires outside { ¬ IsInside (view_of «module».now) world.now (activation_of top.now) rip }
    ensures stands { StandsFor (view_of «module».now) world.now (activation_of top.now) rip
        (here_of result) }
    ensures known { IsKnown (view_of «module».now) world.now result }
{
    if rip != top.entry {
        return host_at(module, world, rip);
    }
    match stub_there(module, world, rip) {
        Some((slot, to)) => Thing::Outer(Outer::Stub { slot, to }),
        None => host_at(module, world, rip),
    }
}

// The slot of the stub at an address, and the word in it.
fn stub_there(module: &Module, world: &World, address: u64) -> Option<(u64, u64)>
    requires whole { IsWhole «module».now }
    requires placed { IsPlaced «module».now world.now }
    ensures some { IfSome result (λ found. (place : ℕ) × (stub : ImageStub)
        × (address ≡ world.now.load + place) × ((view_of «module».now).stub place ≡ Some stub)
        × (found.0 ≡ stub.slot) × (found.1
        ≡ slot_word (view_of «module».now) world.now stub.slot)) }
    ensures none { IfNone result ((place : ℕ) (stub : ImageStub) → address ≡ world.now.load + place
        → (view_of «module».now).stub place ≢ Some stub) }
{
    let Some(place) = address.checked_sub(world.load) else {
        return None;
    };
    match stub_with_place(module, place) {
        Some(stub) => Some((stub.slot, word_in_slot(module, world, place, stub))),
        None => None,
    }
}

// What stands at rip, for the activation that was entered last.
fn thing_for(module: &Module, world: &World, top: &Frame, rip: u64) -> Thing
    requires whole { IsWhole «module».now }
    requires placed { IsPlaced «module».now world.now }
    ensures stands { StandsFor (view_of «module».now) world.now (activation_of top.now) rip
        (here_of result) }
    ensures known { IsKnown (view_of «module».now) world.now result }
{
    match position_of(module, world, top, rip) {
        Position::Spelled(insn, len) => Thing::Insn(insn, len),
        Position::Unspelled => Thing::Nowhere,
        Position::Outside => thing_outside(module, world, top, rip),
    }
}

// What stands at rip.
pub(crate) fn thing_at(machine: &Machine, module: &Module, world: &World) -> Thing
    requires whole { IsWhole «module».now }
    requires placed { IsPlaced «module».now world.now }
    ensures stands { let s = state_of machine.now in StandsAt
        (view_of «module».now) world.now s.rip s.active (here_of result) }
    ensures known { IsKnown (view_of «module».now) world.now result }
{
    match machine.active.last() {
        Some(top) => thing_for(module, world, top, machine.rip),
        None => Thing::Nowhere,
    }
}
