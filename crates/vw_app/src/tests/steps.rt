ghost use Rattle.vw_layout.specs.Layout.{IsWhole};
ghost use Rattle.vw_machine.specs.Answers.{IsPlaced};

use super::fixtures::patch;
use std::alloc::Global;
use std::process::Abort;
use std::test::Fail;
use vw_bits::List;
use vw_layout::Module;
use vw_machine::{Choice, Event, Machine, Outcome, World, events};

/// Bytes at an offset of a file.
type Run = (usize, &'static [u8]);

/// A module with one function `f` of four bytes at 0x78: `jmp` to its own last byte, of which `inc eax` begins there
/// (FF C0), and `ret`.
const JUMP: [Run; 20] = [
    (0, b"\x7fELF\x02\x01\x01"),
    (16, b"\x03\0>\0\x01"),
    (32, b"@"),
    (40, b"\xb8"),
    (52, b"@\08\0\x01\0@\0\x03\0\0\0\x01\0\0\0\x05"),
    (96, b"|"),
    (104, b"|"),
    (113, b"\x10"),
    (120, b"\xeb\xff\xc0\xc3"),
    (152, b"\x01\0\0\0\x12\0\x01\0x"),
    (168, b"\x04"),
    (177, b"f"),
    (252, b"\x02"),
    (272, b"\x80"),
    (280, b"0"),
    (288, b"\x02"),
    (304, b"\x18"),
    (316, b"\x03"),
    (336, b"\xb0"),
    (344, b"\x03"),
];

/// A module with one function `f` at 0x150, which begins with `mov eax, 0x20000` and `call` of the stub at 0x170; the
/// stub goes to the import `lucet_probestack`, whose name begins at 281.
const PROBE: [Run; 48] = [
    (0, b"\x7fELF\x02\x01\x01"),
    (16, b"\x03\0>\0\x01"),
    (32, b"@"),
    (40, b"\xc0\x10"),
    (52, b"@\08\0\x03\0@\0\x03\0\0\0\x01\0\0\0\x05"),
    (96, b"\x80\x01"),
    (104, b"\x80\x01"),
    (113, b"\x10"),
    (120, b"\x01\0\0\0\x06\0\0\0\0\x10"),
    (137, b"\x10"),
    (152, b"\x88"),
    (160, b"\x88"),
    (169, b"\x10"),
    (176, b"\x02\0\0\0\x06\0\0\0\x08\x10"),
    (192, b"\x08\x10"),
    (208, b"\x80"),
    (216, b"\x80"),
    (224, b"\x08"),
    (256, b"\x01\0\0\0\x12"),
    (281, b"lucet_probestack"),
    (305, b"\x10"),
    (312, b"\x06\0\0\0\x01"),
    (
        336,
        b"\xb8\0\0\x02\0\xe8\x16\0\0\0H\x81\xec\0\0\x02\0\xe8\xea\xff\xff\xffH\x81\xc4\0\0\x02\0\xc3\xcc\xcc\xff%\x8a\x0e\0\0\xcc\xcc\xcc\xcc\xcc\xcc\xcc\xcc\xcc\xcc",
    ),
    (4104, b"\x05"),
    (4112, b"\x18\x01"),
    (4120, b"\x06"),
    (4128, b"\xe8"),
    (4136, b"\x0a"),
    (4144, b"\x12"),
    (4152, b"\x0b"),
    (4160, b"\x18"),
    (4168, b"\x07"),
    (4176, b"0\x01"),
    (4184, b"\x08"),
    (4192, b"\x18"),
    (4200, b"\x09"),
    (4208, b"\x18"),
    (4256, b"\x01\0\0\0\x12\0\x01\0P\x01"),
    (4272, b"\x1e"),
    (4281, b"f"),
    (4356, b"\x02"),
    (4376, b"\x88\x10"),
    (4384, b"0"),
    (4392, b"\x02"),
    (4408, b"\x18"),
    (4420, b"\x03"),
    (4440, b"\xb8\x10"),
    (4448, b"\x03"),
];

/// Where the module is loaded in its usual instance.
const LOAD: u64 = 0x100_0000_0000;

/// The address of the host's function for the first import.
const HOST: u64 = 0x6000_0000_0000;

/// An rsp in the middle of the stack.
const RSP: u64 = 0x4000_0008_0008;

// A file of a length with these bytes, and 0 elsewhere.
fn file_of(alloc: Global, len: usize, runs: &[Run]) -> Result<Vec<u8>, Fail> {
    let mut bytes = Vec::new(alloc);
    bytes.resize(len, 0)?;
    for (offset, run) in runs {
        patch(&mut bytes, *offset, *run);
    }
    Ok(bytes)
}

// The machine as the host enters the one function of a module.
fn entered(
    rt: &impl Abort,
    alloc: Global,
    module: &Module,
    world: &World,
    rsp: u64,
) -> Result<Machine, Fail>
    requires whole { IsWhole «module».now }
    requires placed { IsPlaced «module».now world.now }
{
    assert!(rt; module.functions.as_slice().len() == 1);
    assert!(rt; world.stack_low <= rsp && rsp <= world.stack_high - 4_104);
    Ok(Machine::enter(alloc, module, world, 0, rsp)?)
}

// A choice of numbers from 21 on, in which nothing traps that need not, and with two bytes below rsp.
fn some_choice(alloc: Global) -> Result<Choice, Fail> {
    let mut below = List::new(alloc);
    below.push(0xAB)?;
    below.push(0xCD)?;
    Ok(Choice {
        numbers: [21, 22, 23, 24, 25, 26, 27, 28, 29, 30],
        flags: 0b101,
        trap: false,
        below,
    })
}

// Makes so many steps, and says how the last one ends.
fn make_steps(
    alloc: Global,
    machine: &mut Machine,
    module: &Module,
    world: &World,
    count: u32,
) -> Result<Outcome, Fail>
    requires whole { IsWhole «module».now }
    requires placed { IsPlaced «module».now world.now }
{
    let choice = some_choice(alloc)?;
    let mut outcome = Outcome::Went;
    for _ in 0..count {
        outcome = machine.step(alloc, module, world, &choice)?;
    }
    Ok(outcome)
}

// Where the next step goes, if it goes anywhere.
fn target(
    alloc: Global,
    machine: &Machine,
    module: &Module,
    world: &World,
) -> Result<Option<u64>, Fail>
    requires whole { IsWhole «module».now }
    requires placed { IsPlaced «module».now world.now }
{
    let found = events(alloc, machine, module, world, &some_choice(alloc)?)?;
    match found.as_slice().last() {
        Some(Event::Goto { to }) => Ok(Some(*to)),
        _ => Ok(None),
    }
}

/// Two steps of code that jumps into its own last byte go to points 1 and 3, and the third one returns.
#[test]
fn steps_of_a_jump(rt: HostRuntime) -> Result<(), Fail> {
    let alloc = rt.alloc();
    let module = Module::read(alloc, List::from_vec(file_of(alloc, 376, &JUMP)?))?;
    let world = World::usual(alloc, &module)?;
    let mut machine = entered(&rt, alloc, &module, &world, RSP)?;
    for point in [1, 3] {
        let to = target(alloc, &machine, &module, &world)?;
        assert!(rt; to == Some(LOAD + 0x78 + point));
        let outcome = make_steps(alloc, &mut machine, &module, &world, 1)?;
        assert!(rt; outcome == Outcome::Went && machine.rip == LOAD + 0x78 + point);
    }
    let outcome = make_steps(alloc, &mut machine, &module, &world, 1)?;
    assert!(rt; outcome == Outcome::Returned && machine.rip == world.host_return);
    Ok(())
}

// After `count` steps of the module that calls a function of the host through a stub: how the last one ended, rip, rax,
// rsp, how many activations there are, and the byte 9 below where rsp began.
fn after_steps(
    rt: &impl Abort,
    alloc: Global,
    name: u8,
    rsp: u64,
    count: u32,
) -> Result<(Outcome, u64, u64, u64, usize, u8), Fail> {
    let mut file = file_of(alloc, 4480, &PROBE)?;
    if let Some(byte) = file.get_mut(281) {
        *byte = name;
    }
    let module = Module::read(alloc, List::from_vec(file))?;
    let world = World::usual(alloc, &module)?;
    let mut machine = entered(rt, alloc, &module, &world, rsp)?;
    let outcome = make_steps(alloc, &mut machine, &module, &world, count)?;
    let registers = machine.registers;
    let byte = match machine.bytes.get(&rsp.saturating_sub(9)) {
        Some(byte) => *byte,
        None => 0,
    };
    Ok((
        outcome,
        machine.rip,
        registers[0],
        registers[4],
        machine.active.len(),
        byte,
    ))
}

/// A call, its stub, and the step of the probe, which keeps rax, or of another function of the host, which leaves there
/// what is chosen. The probe traps where less than rax is left of the stack.
#[test]
fn steps_of_stubs_and_hosts(rt: HostRuntime) -> Result<(), Fail> {
    let alloc = rt.alloc();
    let low = 0x4000_0001_FFF8;
    for (name, rsp, count, outcome, rip, rax, under, active, byte) in [
        (b'l', RSP, 1, Outcome::Went, LOAD + 0x155, 0x20000, 0, 1, 0),
        (b'l', RSP, 2, Outcome::Went, LOAD + 0x170, 0x20000, 8, 2, 0),
        (b'l', RSP, 3, Outcome::Went, HOST, 0x20000, 8, 2, 0),
        (
            b'l',
            RSP,
            4,
            Outcome::Went,
            LOAD + 0x15A,
            0x20000,
            0,
            1,
            0xAB,
        ),
        (b'k', RSP, 4, Outcome::Went, LOAD + 0x15A, 21, 0, 1, 0xAB),
        (b'l', low, 4, Outcome::Trapped, HOST, 0x20000, 8, 2, 0),
        (
            b'l',
            low + 8,
            4,
            Outcome::Went,
            LOAD + 0x15A,
            0x20000,
            0,
            1,
            0xAB,
        ),
    ] {
        let found = after_steps(&rt, alloc, name, rsp, count)?;
        assert!(rt; found == (outcome, rip, rax, rsp - under, active, byte));
    }
    Ok(())
}
