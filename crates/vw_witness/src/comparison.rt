//! Whether an instruction does what a processor did.

ghost use Rattle.vw_insn.specs.Listed.{IsListed};

use crate::line::{Line, Outcome, Snapshot, Touched};
use crate::stepping::step_difference;
use std::alloc::Global;
use vw_decode::decode;
use vw_effect::{Access, After, Open, Reads, Transfer, Write, effect, may_trap, reads};
use vw_insn::{Base, HighReg, Insn, Place, Reg, XmmOperand, XmmRow};

// Where each instruction stood.
const AT: u64 = 0x1000_00A2;

fn word(registers: &[u64; 16], reg: Reg) -> u64 {
    registers.get(reg as usize).copied().unwrap_or(0)
}

fn high_byte(registers: &[u64; 16], high: HighReg) -> u64 {
    registers.get(high as usize).copied().unwrap_or(0) / 0x100 % 0x100
}

// The number in a place after the instruction; `written` is that of memory.
fn held(place: Place, registers: &[u64; 16], written: u64) -> u64 {
    match place {
        Place::Reg(reg) => word(registers, reg),
        Place::High(high) => high_byte(registers, high),
        Place::Mem(_) => written,
    }
}

fn halves(write: Option<Touched>) -> [u64; 2] {
    match write {
        None => [0, 0],
        Some(touched) => [
            (touched.value % 0x1_0000_0000_0000_0000) as u64,
            (touched.value / 0x1_0000_0000_0000_0000) as u64,
        ],
    }
}

// The open results, as the processor had them.
fn results(insn: &Insn, registers: &[u64; 16], write: Option<Touched>) -> [u64; 2] {
    let written = halves(write);
    match *insn {
        Insn::Alu { dst, .. } | Insn::Shift { dst, .. } | Insn::Unary { dst, .. } => {
            [held(dst, registers, written[0]), 0]
        }
        Insn::Imul { dst, .. } | Insn::Bits { dst, .. } | Insn::Bswap { dst, .. } => {
            [word(registers, dst), 0]
        }
        Insn::Widen { .. } | Insn::MulDiv { .. } => [registers[0], registers[2]],
        Insn::SignA { .. } => [registers[2], 0],
        Insn::Xmm { row, reg, rm, .. } => match rm {
            XmmOperand::Mem(_) if write.is_some() => written,
            XmmOperand::Reg(n) if row == XmmRow::MovdStore => {
                [registers.get(usize::from(n)).copied().unwrap_or(0), 0]
            }
            _ => [registers.get(usize::from(reg)).copied().unwrap_or(0), 0],
        },
        _ => [0, 0],
    }
}

fn reads_same(found: Reads, read: Option<Touched>) -> bool {
    match (found, read) {
        (Reads::Nothing, None) => true,
        (Reads::One(access), Some(touched)) => access == touched.access,
        _ => false,
    }
}

fn writes_same(found: Option<Write>, write: Option<Touched>) -> bool {
    match (found, write) {
        (None, None) => true,
        (Some(found), Some(touched)) => {
            let access = Access {
                at: found.at,
                size: found.size,
            };
            access == touched.access && found.value == touched.value
        }
        _ => false,
    }
}

fn goes_to(found: Transfer, to: Option<u64>) -> bool {
    match found {
        Transfer::Next => to.is_none(),
        Transfer::To(a) | Transfer::Enter(a) | Transfer::Back(a) => to == Some(a),
        Transfer::Stop => false,
    }
}

fn difference_after(
    found: &After,
    state: &Snapshot,
    to: Option<u64>,
    line: &Line,
) -> Option<&'static str> {
    if found.registers != state.registers {
        return Some("registers");
    }
    if found.flags != state.flags {
        return Some("flags");
    }
    if !writes_same(found.write, line.write) {
        return Some("write");
    }
    if !goes_to(found.transfer, to) {
        return Some("transfer");
    }
    None
}

fn loaded(read: Option<Touched>) -> u64 {
    halves(read)[0]
}

fn effect_of(insn: &Insn, next: u64, line: &Line, state: &Snapshot) -> After
    requires { IsListed insn.now }
{
    let choice = Open {
        numbers: results(insn, &state.registers, line.write),
        flags: state.flags,
    };
    effect(
        insn,
        next,
        &line.before.registers,
        line.before.flags,
        loaded(line.read),
        &choice,
    )
}

fn difference_of(insn: &Insn, next: u64, line: &Line) -> Option<&'static str>
    requires { IsListed insn.now }
{
    if !reads_same(reads(insn, next, &line.before.registers), line.read) {
        return Some("read");
    }
    match &line.outcome {
        Outcome::Trap => {
            let stops = effect_of(insn, next, line, &line.before).transfer == Transfer::Stop;
            if stops || may_trap(insn) {
                None
            } else {
                Some("trap")
            }
        }
        Outcome::Next(state) => {
            difference_after(&effect_of(insn, next, line, state), state, None, line)
        }
        Outcome::Went(state, to) => {
            difference_after(&effect_of(insn, next, line, state), state, Some(*to), line)
        }
    }
}

/// What differs first between what the instruction of a line does and what a processor did, where results and flags
/// that are open are as the processor had them.
pub fn difference(line: &Line) -> Option<&'static str> {
    match decode(line.code.as_slice()) {
        None => Some("instruction"),
        Some((insn, size)) => {
            if size != line.code.len() {
                return Some("length");
            }
            difference_of(&insn, AT.wrapping_add(size as u64), line)
        }
    }
}

// Whether the instruction gives the same wherever it stands.
fn stands_anywhere(insn: &Insn) -> bool {
    match insn {
        Insn::Lea { mem, .. } => mem.base != Base::Rip,
        _ => true,
    }
}

/// The same of a step of the machine. None where the line is not one of those that are stepped: its instruction accesses
/// no memory, does not count from rip, and goes on to the next one.
pub fn stepped(alloc: Global, line: &Line) -> Option<Option<&'static str>> {
    if line.read.is_some() || line.write.is_some() {
        return None;
    }
    let (Outcome::Next(state), Some((insn, _))) = (&line.outcome, decode(line.code.as_slice()))
    else {
        return None;
    };
    if !stands_anywhere(&insn) {
        return None;
    }
    let chosen = results(&insn, &state.registers, None);
    Some(step_difference(alloc, line, state, chosen).unwrap_or(Some("memory")))
}
