//! What an instruction reads.

ghost use Rattle.std.specs.Prelude.{◌≡◌, ◌++◌};
ghost use Rattle.vw_insn.specs.Effect.{reads, reads_place, reads_source, reads_top, reads_xmm, unwound};
ghost use Rattle.vw_effect.specs.Meaning.{registers_of, accesses_of, reads_of};

use crate::addresses::{AT_RBP, address};
use crate::{Access, Reads};
use vw_insn::{Insn, Mem, Place, Source, Width, XmmOperand, XmmRow};

fn reads_place(next: u64, registers: &[u64; 16], w: Width, place: Place) -> Option<Access>
    ensures { accesses_of result ≡ reads_place next (registers_of registers.now) w place }
{
    match place {
        Place::Mem(mem) => Some(Access {
            at: address(next, registers, mem),
            size: u32::from(w.bytes()),
        }),
        Place::Reg(_) | Place::High(_) => None,
    }
}

fn reads_source(next: u64, registers: &[u64; 16], w: Width, source: Source) -> Option<Access>
    ensures { accesses_of result ≡ reads_source next (registers_of registers.now) w source }
{
    match source {
        Source::Place(place) => reads_place(next, registers, w, place),
        Source::Imm(_) => None,
    }
}

fn top_of_stack(next: u64, registers: &[u64; 16]) -> Access
    ensures { accesses_of (Some result) ≡ reads_top next (registers_of registers.now) }
{
    Access {
        at: address(next, registers, Mem::at_rsp()),
        size: 8,
    }
}

fn top_of_frame(next: u64, registers: &[u64; 16]) -> Access
    ensures { accesses_of (Some result) ≡ reads_top next (unwound (registers_of registers.now)) }
{
    Access {
        at: address(next, registers, AT_RBP),
        size: 8,
    }
}

fn reads_xmm(
    next: u64,
    registers: &[u64; 16],
    row: XmmRow,
    wide: bool,
    rm: XmmOperand,
) -> Option<Access>
    ensures { accesses_of result ≡ reads_xmm next (registers_of registers.now) row wide rm }
{
    match rm {
        XmmOperand::Mem(mem) => {
            if row.is_store() {
                None
            } else {
                Some(Access {
                    at: address(next, registers, mem),
                    size: u32::from(row.size(wide)),
                })
            }
        }
        XmmOperand::Reg(_) => None,
    }
}

fn one(access: Option<Access>) -> Reads
    ensures { reads_of result ≡ accesses_of access }
{
    match access {
        None => Reads::Nothing,
        Some(access) => Reads::One(access),
    }
}

fn both(first: Option<Access>, second: Option<Access>) -> Reads
    ensures { reads_of result ≡ accesses_of first ++ accesses_of second }
{
    match (first, second) {
        (Some(first), Some(second)) => Reads::Two(first, second),
        (Some(only), None) | (None, Some(only)) => Reads::One(only),
        (None, None) => Reads::Nothing,
    }
}

/// What an instruction before `next` reads from these registers: its memory operand, also where it
/// is written afterwards, or the top of the stack (SDM volume 2, "Operation" of each instruction).
/// CMOV reads its operand whether the condition holds or not. LEA, NOP, MOV to memory and SET read
/// none.
pub fn reads(insn: &Insn, next: u64, registers: &[u64; 16]) -> Reads
    ensures { reads_of result ≡ reads insn.now next (registers_of registers.now) }
{
    match *insn {
        Insn::Alu { op: _, w, dst, src } => both(
            reads_place(next, registers, w, dst),
            reads_source(next, registers, w, src),
        ),
        Insn::Test { w, a, b } => both(
            reads_place(next, registers, w, a),
            reads_source(next, registers, w, b),
        ),
        Insn::Push { src } => one(reads_source(next, registers, Width::W64, src)),
        Insn::Mov { w, dst: _, src } => one(reads_source(next, registers, w, src)),
        Insn::Pop { .. } | Insn::Ret => Reads::One(top_of_stack(next, registers)),
        Insn::Leave => Reads::One(top_of_frame(next, registers)),
        Insn::CallInd { src } | Insn::JumpInd { src } => {
            one(reads_place(next, registers, Width::W64, src))
        }
        Insn::Extend { from: w, src, .. }
        | Insn::Imul { w, src, .. }
        | Insn::MulDiv { w, src, .. }
        | Insn::Cmov { w, src, .. }
        | Insn::Bits { w, src, .. }
        | Insn::Shift { w, dst: src, .. }
        | Insn::Unary { w, dst: src, .. } => one(reads_place(next, registers, w, src)),
        Insn::Xmm { row, wide, rm, .. } => one(reads_xmm(next, registers, row, wide, rm)),
        Insn::Jcc { .. }
        | Insn::Jump { .. }
        | Insn::Call { .. }
        | Insn::Xchg { .. }
        | Insn::MovImm64 { .. }
        | Insn::Lea { .. }
        | Insn::Nop
        | Insn::Widen { .. }
        | Insn::SignA { .. }
        | Insn::Ud2
        | Insn::Set { .. }
        | Insn::Bt { .. }
        | Insn::Bswap { .. }
        | Insn::Endbr => Reads::Nothing,
    }
}
