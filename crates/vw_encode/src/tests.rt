use crate::{NotEncodable, Spelled, encode};
use std::process::Abort;
use vw_insn::{
    AluOp, Base, BitsOp, Cond, Count, HighReg, Insn, Mem, MulDivOp, Place, Reg, ShiftOp, Source,
    UnaryOp, Width, XmmOperand, XmmRow,
};

// The bytes of these tests are worked out by hand from the SDM (volume 2, chapters 2 to 5): the first row
// that has the instruction, and nothing in it that is not needed.

fn gives(rt: &impl Abort, insn: Insn, expected: &[u8]) {
    assert!(rt; begins(encode(&insn), expected));
}

fn begins(found: Result<Spelled, NotEncodable>, expected: &[u8]) -> bool {
    match found {
        Err(_) => false,
        Ok(spelled) => {
            let bytes = spelled.bytes;
            spelled.len as usize == expected.len() && bytes.starts_with(expected)
        }
    }
}

fn reg(reg: Reg) -> Place {
    Place::Reg(reg)
}

fn memory(base: Base, index: Option<(Reg, u8)>, disp: i32) -> Mem {
    Mem { base, index, disp }
}

fn mov(w: Width, dst: Place, src: Source) -> Insn {
    Insn::Mov { w, dst, src }
}

/// Immediates and pushes.
#[test]
fn arithmetic_and_stack(rt: HostRuntime) {
    let add = Insn::Alu {
        op: AluOp::Add,
        w: Width::W32,
        dst: reg(Reg::Rax),
        src: Source::Imm(1),
    };
    gives(&rt, add, &[0x05, 0x01, 0, 0, 0]);
    let push = Insn::Push {
        src: Source::Imm(5),
    };
    gives(&rt, push, &[0x68, 0x05, 0, 0, 0]);
    gives(&rt, Insn::Pop { dst: Reg::Rbx }, &[0x5B]);
    let imul = Insn::Imul {
        w: Width::W32,
        dst: Reg::Rax,
        src: reg(Reg::Rcx),
        imm: Some(3),
    };
    gives(&rt, imul, &[0x6B, 0xC1, 0x03]);
    let test = Insn::Test {
        w: Width::W32,
        a: reg(Reg::Rax),
        b: Source::Place(reg(Reg::Rcx)),
    };
    gives(&rt, test, &[0x85, 0xC8]);
    let exchange = Insn::Xchg {
        w: Width::W32,
        a: Reg::Rax,
        b: Reg::Rcx,
    };
    gives(&rt, exchange, &[0x87, 0xC8]);
    gives(&rt, Insn::Widen { w: Width::W64 }, &[0x48, 0x98]);
    gives(&rt, Insn::SignA { w: Width::W16 }, &[0x66, 0x99]);
}

/// Shifts and instructions with one operand.
#[test]
fn single_operands(rt: HostRuntime) {
    let shift = Insn::Shift {
        op: ShiftOp::Shl,
        w: Width::W32,
        dst: reg(Reg::Rax),
        by: Count::Imm(1),
    };
    gives(&rt, shift, &[0xC1, 0xE0, 0x01]);
    let by_cl = Insn::Shift {
        op: ShiftOp::Shl,
        w: Width::W32,
        dst: reg(Reg::Rax),
        by: Count::Cl,
    };
    gives(&rt, by_cl, &[0xD3, 0xE0]);
    let not = Insn::Unary {
        op: UnaryOp::Not,
        w: Width::W8,
        dst: reg(Reg::Rcx),
    };
    gives(&rt, not, &[0xF6, 0xD1]);
    let divide = Insn::MulDiv {
        op: MulDivOp::Idiv,
        w: Width::W32,
        src: reg(Reg::Rcx),
    };
    gives(&rt, divide, &[0xF7, 0xF9]);
    let set = Insn::Set {
        cond: Cond::Ne,
        dst: Place::High(HighReg::Ah),
    };
    gives(&rt, set, &[0x0F, 0x95, 0xC4]);
    let swap = Insn::Bswap {
        w: Width::W32,
        dst: Reg::R9,
    };
    gives(&rt, swap, &[0x41, 0x0F, 0xC9]);
    let bit = Insn::Bt {
        w: Width::W64,
        a: Reg::R15,
        bit: Source::Imm(3),
    };
    gives(&rt, bit, &[0x49, 0x0F, 0xBA, 0xE7, 0x03]);
}

/// Jumps, calls and instructions without operands.
#[test]
fn control_flow(rt: HostRuntime) {
    let jcc = Insn::Jcc {
        cond: Cond::E,
        rel: 5,
    };
    gives(&rt, jcc, &[0x74, 0x05]);
    gives(&rt, Insn::Jump { rel: 200 }, &[0xE9, 0xC8, 0, 0, 0]);
    gives(&rt, Insn::Call { rel: -1 }, &[0xE8, 0xFF, 0xFF, 0xFF, 0xFF]);
    gives(&rt, Insn::Ret, &[0xC3]);
    gives(&rt, Insn::Leave, &[0xC9]);
    let call = Insn::CallInd { src: reg(Reg::Rax) };
    gives(&rt, call, &[0xFF, 0xD0]);
    let jump = Insn::JumpInd {
        src: Place::Mem(memory(Base::Rip, None, 0)),
    };
    gives(&rt, jump, &[0xFF, 0x25, 0, 0, 0, 0]);
    gives(&rt, Insn::Nop, &[0x90]);
    gives(&rt, Insn::Ud2, &[0x0F, 0x0B]);
    gives(&rt, Insn::Endbr, &[0xF3, 0x0F, 0x1E, 0xFA]);
}

/// Moves: immediates, byte registers, each form of memory.
#[test]
fn moves(rt: HostRuntime) {
    let five = mov(Width::W32, reg(Reg::Rax), Source::Imm(5));
    gives(&rt, five, &[0xC7, 0xC0, 5, 0, 0, 0]);
    let wide = Insn::MovImm64 {
        dst: Reg::Rax,
        imm: 5,
    };
    gives(&rt, wide, &[0x48, 0xB8, 5, 0, 0, 0, 0, 0, 0, 0]);
    let spl = mov(Width::W8, reg(Reg::Rsp), Source::Imm(1));
    gives(&rt, spl, &[0x40, 0xB4, 0x01]);
    let eax = Source::Place(reg(Reg::Rax));
    let at_rbp = Place::Mem(memory(Base::Reg(Reg::Rbp), None, 0));
    gives(&rt, mov(Width::W32, at_rbp, eax), &[0x89, 0x45, 0x00]);
    let at_128 = Place::Mem(memory(Base::Reg(Reg::Rax), None, 128));
    gives(
        &rt,
        mov(Width::W32, at_128, eax),
        &[0x89, 0x80, 0x80, 0, 0, 0],
    );
    let at_rsp = Place::Mem(memory(Base::Reg(Reg::Rsp), None, 0));
    gives(&rt, mov(Width::W32, at_rsp, eax), &[0x89, 0x04, 0x24]);
    let absolute = Place::Mem(memory(Base::None, None, 16));
    gives(
        &rt,
        mov(Width::W32, absolute, eax),
        &[0x89, 0x04, 0x25, 0x10, 0, 0, 0],
    );
    let lea = Insn::Lea {
        w: Width::W64,
        dst: Reg::Rax,
        mem: memory(Base::Reg(Reg::Rax), Some((Reg::Rcx, 4)), 8),
    };
    gives(&rt, lea, &[0x48, 0x8D, 0x44, 0x88, 0x08]);
}

/// Extensions, conditional moves, bit counts and XMM registers.
#[test]
fn two_byte_opcodes(rt: HostRuntime) {
    let extend = Insn::Extend {
        signed: false,
        from: Width::W8,
        to: Width::W32,
        dst: Reg::Rax,
        src: reg(Reg::Rcx),
    };
    gives(&rt, extend, &[0x0F, 0xB6, 0xC1]);
    let cmov = Insn::Cmov {
        cond: Cond::E,
        w: Width::W32,
        dst: Reg::Rax,
        src: reg(Reg::Rcx),
    };
    gives(&rt, cmov, &[0x0F, 0x44, 0xC1]);
    let popcnt = Insn::Bits {
        op: BitsOp::Popcnt,
        w: Width::W64,
        dst: Reg::R8,
        src: Place::Mem(memory(Base::Reg(Reg::Rsp), None, 0)),
    };
    gives(&rt, popcnt, &[0xF3, 0x4C, 0x0F, 0xB8, 0x04, 0x24]);
    let round = Insn::Xmm {
        row: XmmRow::Roundsd,
        wide: false,
        reg: 1,
        rm: XmmOperand::Reg(2),
        imm: 3,
    };
    gives(&rt, round, &[0x66, 0x0F, 0x3A, 0x0B, 0xCA, 0x03]);
    let movq = Insn::Xmm {
        row: XmmRow::MovdLoad,
        wide: true,
        reg: 1,
        rm: XmmOperand::Reg(0),
        imm: 0,
    };
    gives(&rt, movq, &[0x66, 0x48, 0x0F, 0x6E, 0xC8]);
}

/// No MOV goes from memory to memory.
#[test]
fn no_spelling(rt: HostRuntime) {
    let mem = Place::Mem(memory(Base::Reg(Reg::Rax), None, 0));
    let to_memory = mov(Width::W32, mem, Source::Place(mem));
    assert!(rt; encode(&to_memory) == Err(NotEncodable));
}
