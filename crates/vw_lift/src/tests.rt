ghost use Rattle.vw_insn.specs.Listed.{IsListed};

use crate::lift;
use std::alloc::Global;
use vw_insn::{
    AluOp, Base, BitsOp, Cond, Count, HighReg, Insn, Mem, MulDivOp, Place, Reg, ShiftOp, Source,
    UnaryOp, Width, XmmOperand, XmmRow,
};
use vw_stmt::{Compare, Flow, Operand, Stmt, Var};

const RAX: Var = Var::Reg(Reg::Rax);

const RCX: Var = Var::Reg(Reg::Rcx);

const RDX: Var = Var::Reg(Reg::Rdx);

const RSP: Var = Var::Reg(Reg::Rsp);

const RBP: Var = Var::Reg(Reg::Rbp);

const TMP: Operand = Operand::Var(Var::Tmp);

const ANY_FLAGS: Stmt = Stmt::Flags { fact: None };

const NEXT: Stmt = Stmt::Flow(Flow::Next);

// [rbp - 8]
const SLOT: Mem = Mem {
    base: Base::Reg(Reg::Rbp),
    index: None,
    disp: -8,
};

// [rdi + rcx * 8 - 16]
const ELEMENT: Mem = Mem {
    base: Base::Reg(Reg::Rdi),
    index: Some((Reg::Rcx, 8)),
    disp: -16,
};

// [rip + 16]
const GLOBAL: Mem = Mem {
    base: Base::Rip,
    index: None,
    disp: 16,
};

const TOP: Mem = Mem {
    base: Base::Reg(Reg::Rsp),
    index: None,
    disp: 0,
};

const BELOW: Mem = Mem {
    base: Base::Reg(Reg::Rsp),
    index: None,
    disp: -8,
};

fn load_tmp(size: u8, to: Width, mem: Mem) -> Stmt {
    Stmt::Load {
        dst: Var::Tmp,
        size,
        to,
        signed: false,
        mem,
    }
}

fn rsp_by_8(minus: bool) -> Stmt {
    Stmt::Sum {
        dst: RSP,
        a: RSP,
        b: Operand::Imm(8),
        minus,
    }
}

fn open(dst: Var, w: Width) -> Stmt {
    Stmt::Open { dst, w }
}

fn copy(dst: Var, src: Var) -> Stmt {
    Stmt::Copy { dst, src }
}

fn lifts_to(alloc: Global, insn: Insn, want: &[Stmt]) -> bool
    requires { IsListed insn }
{
    lift(alloc, &insn, 0x1000, 3).as_slice() == want
}

/// Moves and addresses.
#[test]
fn lifts_moves(rt: HostRuntime) {
    // mov eax, ecx
    let insn = Insn::Mov {
        w: Width::W32,
        dst: Place::Reg(Reg::Rax),
        src: Source::Place(Place::Reg(Reg::Rcx)),
    };
    let narrow = Stmt::Narrow {
        dst: RAX,
        src: RCX,
        from: Width::W32,
        to: Width::W64,
        signed: false,
    };
    assert!(rt; lifts_to(rt.alloc(), insn, &[narrow, NEXT]));
    // mov rax, [rdi + rcx * 8 - 16]
    let insn = Insn::Mov {
        w: Width::W64,
        dst: Place::Reg(Reg::Rax),
        src: Source::Place(Place::Mem(ELEMENT)),
    };
    let load = Stmt::Load {
        dst: RAX,
        size: 8,
        to: Width::W64,
        signed: false,
        mem: ELEMENT,
    };
    assert!(rt; lifts_to(rt.alloc(), insn, &[load, NEXT]));
    // mov dword [rbp - 8], -1
    let insn = Insn::Mov {
        w: Width::W32,
        dst: Place::Mem(SLOT),
        src: Source::Imm(-1),
    };
    let store = Stmt::Store {
        mem: SLOT,
        size: 4,
        src: Operand::Imm(-1),
    };
    assert!(rt; lifts_to(rt.alloc(), insn, &[store, NEXT]));
    // mov ecx, -1
    let insn = Insn::Mov {
        w: Width::W32,
        dst: Place::Reg(Reg::Rcx),
        src: Source::Imm(-1),
    };
    let set = Stmt::Set {
        dst: RCX,
        c: 0xffff_ffff,
    };
    assert!(rt; lifts_to(rt.alloc(), insn, &[set, NEXT]));
    // mov ah, [rbp - 8]
    let insn = Insn::Mov {
        w: Width::W8,
        dst: Place::High(HighReg::Ah),
        src: Source::Place(Place::Mem(SLOT)),
    };
    assert!(rt;
        lifts_to(
            rt.alloc(),
            insn,
            &[load_tmp(1, Width::W8, SLOT), open(RAX, Width::W8), NEXT]
        )
    );
    // movsxd rax, [rbp - 8]
    let insn = Insn::Extend {
        signed: true,
        from: Width::W32,
        to: Width::W64,
        dst: Reg::Rax,
        src: Place::Mem(SLOT),
    };
    let load = Stmt::Load {
        dst: RAX,
        size: 4,
        to: Width::W64,
        signed: true,
        mem: SLOT,
    };
    assert!(rt; lifts_to(rt.alloc(), insn, &[load, NEXT]));
    // cmovb ecx, [rbp - 8]
    let insn = Insn::Cmov {
        cond: Cond::B,
        w: Width::W32,
        dst: Reg::Rcx,
        src: Place::Mem(SLOT),
    };
    let choose = Stmt::Choose {
        dst: RCX,
        w: Width::W32,
        a: RCX,
        b: TMP,
    };
    assert!(rt;
        lifts_to(
            rt.alloc(),
            insn,
            &[load_tmp(4, Width::W32, SLOT), choose, NEXT]
        )
    );
    // setne byte [rbp - 8]
    let insn = Insn::Set {
        cond: Cond::Ne,
        dst: Place::Mem(SLOT),
    };
    let store = Stmt::Store {
        mem: SLOT,
        size: 1,
        src: TMP,
    };
    assert!(rt; lifts_to(rt.alloc(), insn, &[open(Var::Tmp, Width::W8), store, NEXT]));
    // lea rdx, [rdi + rcx * 8 - 16]
    let insn = Insn::Lea {
        w: Width::W64,
        dst: Reg::Rdx,
        mem: ELEMENT,
    };
    let lea = Stmt::Lea {
        dst: RDX,
        mem: ELEMENT,
    };
    assert!(rt; lifts_to(rt.alloc(), insn, &[lea, NEXT]));
    // xchg rax, rcx
    let insn = Insn::Xchg {
        w: Width::W64,
        a: Reg::Rax,
        b: Reg::Rcx,
    };
    assert!(rt;
        lifts_to(
            rt.alloc(),
            insn,
            &[
                copy(Var::Tmp, RAX),
                copy(RAX, RCX),
                copy(RCX, Var::Tmp),
                NEXT
            ]
        )
    );
}

/// The stack and transfers of control.
#[test]
fn lifts_transfers(rt: HostRuntime) {
    // push [rip + 16]
    let insn = Insn::Push {
        src: Source::Place(Place::Mem(GLOBAL)),
    };
    let store = Stmt::Store {
        mem: BELOW,
        size: 8,
        src: TMP,
    };
    assert!(rt;
        lifts_to(
            rt.alloc(),
            insn,
            &[load_tmp(8, Width::W64, GLOBAL), store, rsp_by_8(true), NEXT]
        )
    );
    // pop rsp
    let insn = Insn::Pop { dst: Reg::Rsp };
    assert!(rt;
        lifts_to(
            rt.alloc(),
            insn,
            &[
                load_tmp(8, Width::W64, TOP),
                rsp_by_8(false),
                copy(RSP, Var::Tmp),
                NEXT
            ]
        )
    );
    // leave
    assert!(rt;
        lifts_to(
            rt.alloc(),
            Insn::Leave,
            &[
                copy(RSP, RBP),
                load_tmp(8, Width::W64, TOP),
                rsp_by_8(false),
                copy(RBP, Var::Tmp),
                NEXT
            ]
        )
    );
    // call [rip + 16]
    let insn = Insn::CallInd {
        src: Place::Mem(GLOBAL),
    };
    assert!(rt;
        lifts_to(
            rt.alloc(),
            insn,
            &[
                load_tmp(8, Width::W64, GLOBAL),
                Stmt::Flow(Flow::CallReg { src: Var::Tmp })
            ]
        )
    );
    // jmp rcx
    let insn = Insn::JumpInd {
        src: Place::Reg(Reg::Rcx),
    };
    assert!(rt; lifts_to(rt.alloc(), insn, &[Stmt::Flow(Flow::JumpReg { src: RCX })]));
    // jne, 5 bytes back from the next instruction
    let insn = Insn::Jcc {
        cond: Cond::Ne,
        rel: -5,
    };
    assert!(rt;
        lifts_to(
            rt.alloc(),
            insn,
            &[Stmt::Flow(Flow::Branch {
                cond: Cond::Ne,
                rel: -5
            })]
        )
    );
    assert!(rt; lifts_to(rt.alloc(), Insn::Ret, &[Stmt::Flow(Flow::Ret)]));
    assert!(rt; lifts_to(rt.alloc(), Insn::Ud2, &[Stmt::Flow(Flow::Stop)]));
    assert!(rt; lifts_to(rt.alloc(), Insn::Endbr, &[NEXT]));
}

/// Arithmetic and flags.
#[test]
fn lifts_arithmetic(rt: HostRuntime) {
    // sub rsp, 32
    let insn = Insn::Alu {
        op: AluOp::Sub,
        w: Width::W64,
        dst: Place::Reg(Reg::Rsp),
        src: Source::Imm(32),
    };
    let sum = Stmt::Sum {
        dst: RSP,
        a: RSP,
        b: Operand::Imm(32),
        minus: true,
    };
    assert!(rt; lifts_to(rt.alloc(), insn, &[ANY_FLAGS, sum, NEXT]));
    // xor ecx, ecx
    let insn = Insn::Alu {
        op: AluOp::Xor,
        w: Width::W32,
        dst: Place::Reg(Reg::Rcx),
        src: Source::Place(Place::Reg(Reg::Rcx)),
    };
    assert!(rt;
        lifts_to(
            rt.alloc(),
            insn,
            &[ANY_FLAGS, Stmt::Set { dst: RCX, c: 0 }, NEXT]
        )
    );
    // and eax, [rbp - 8]
    let insn = Insn::Alu {
        op: AluOp::And,
        w: Width::W32,
        dst: Place::Reg(Reg::Rax),
        src: Source::Place(Place::Mem(SLOT)),
    };
    let and = Stmt::And {
        dst: RAX,
        w: Width::W32,
        a: RAX,
        b: TMP,
    };
    assert!(rt;
        lifts_to(
            rt.alloc(),
            insn,
            &[load_tmp(4, Width::W32, SLOT), ANY_FLAGS, and, NEXT]
        )
    );
    // cmp dword [rbp - 8], 5
    let insn = Insn::Alu {
        op: AluOp::Cmp,
        w: Width::W32,
        dst: Place::Mem(SLOT),
        src: Source::Imm(5),
    };
    let compare = Compare {
        w: Width::W32,
        a: Var::Tmp,
        b: Operand::Imm(5),
    };
    assert!(rt;
        lifts_to(
            rt.alloc(),
            insn,
            &[
                load_tmp(4, Width::W32, SLOT),
                Stmt::Flags {
                    fact: Some(compare)
                },
                NEXT
            ]
        )
    );
    // add [rbp - 8], rax
    let insn = Insn::Alu {
        op: AluOp::Add,
        w: Width::W64,
        dst: Place::Mem(SLOT),
        src: Source::Place(Place::Reg(Reg::Rax)),
    };
    let store = Stmt::Store {
        mem: SLOT,
        size: 8,
        src: TMP,
    };
    assert!(rt;
        lifts_to(
            rt.alloc(),
            insn,
            &[
                load_tmp(8, Width::W64, SLOT),
                ANY_FLAGS,
                open(Var::Tmp, Width::W64),
                store,
                NEXT
            ]
        )
    );
    // not word [rbp - 8]
    let insn = Insn::Unary {
        op: UnaryOp::Not,
        w: Width::W16,
        dst: Place::Mem(SLOT),
    };
    let store = Stmt::Store {
        mem: SLOT,
        size: 2,
        src: TMP,
    };
    assert!(rt;
        lifts_to(
            rt.alloc(),
            insn,
            &[
                load_tmp(2, Width::W16, SLOT),
                open(Var::Tmp, Width::W16),
                store,
                NEXT
            ]
        )
    );
    // shl rdx, 4
    let insn = Insn::Shift {
        op: ShiftOp::Shl,
        w: Width::W64,
        dst: Place::Reg(Reg::Rdx),
        by: Count::Imm(4),
    };
    assert!(rt; lifts_to(rt.alloc(), insn, &[ANY_FLAGS, Stmt::Shl { dst: RDX }, NEXT]));
    // div cl
    let insn = Insn::MulDiv {
        op: MulDivOp::Div,
        w: Width::W8,
        src: Place::Reg(Reg::Rcx),
    };
    assert!(rt; lifts_to(rt.alloc(), insn, &[ANY_FLAGS, open(RAX, Width::W64), NEXT]));
    // mul ecx
    let insn = Insn::MulDiv {
        op: MulDivOp::Mul,
        w: Width::W32,
        src: Place::Reg(Reg::Rcx),
    };
    assert!(rt;
        lifts_to(
            rt.alloc(),
            insn,
            &[
                ANY_FLAGS,
                open(RAX, Width::W32),
                open(RDX, Width::W32),
                NEXT
            ]
        )
    );
    // popcnt ecx, [rbp - 8]
    let insn = Insn::Bits {
        op: BitsOp::Popcnt,
        w: Width::W32,
        dst: Reg::Rcx,
        src: Place::Mem(SLOT),
    };
    assert!(rt;
        lifts_to(
            rt.alloc(),
            insn,
            &[
                load_tmp(4, Width::W32, SLOT),
                ANY_FLAGS,
                open(RCX, Width::W64),
                NEXT
            ]
        )
    );
}

/// Instructions on XMM registers.
#[test]
fn lifts_xmm(rt: HostRuntime) {
    // ucomisd xmm0, [rbp - 8]
    let insn = Insn::Xmm {
        row: XmmRow::Ucomisd,
        wide: false,
        reg: 0,
        rm: XmmOperand::Mem(SLOT),
        imm: 0,
    };
    let touch = Stmt::Touch {
        mem: SLOT,
        size: 8,
        write: false,
    };
    assert!(rt; lifts_to(rt.alloc(), insn, &[touch, ANY_FLAGS, NEXT]));
    // cvttsd2si rcx, [rbp - 8]
    let insn = Insn::Xmm {
        row: XmmRow::Cvttsd2si,
        wide: true,
        reg: 1,
        rm: XmmOperand::Mem(SLOT),
        imm: 0,
    };
    assert!(rt; lifts_to(rt.alloc(), insn, &[touch, open(RCX, Width::W64), NEXT]));
    // movups [rsp], xmm7
    let insn = Insn::Xmm {
        row: XmmRow::MovupsStore,
        wide: false,
        reg: 7,
        rm: XmmOperand::Mem(TOP),
        imm: 0,
    };
    let touch = Stmt::Touch {
        mem: TOP,
        size: 16,
        write: true,
    };
    assert!(rt; lifts_to(rt.alloc(), insn, &[touch, NEXT]));
    // movd edx, xmm1
    let insn = Insn::Xmm {
        row: XmmRow::MovdStore,
        wide: false,
        reg: 1,
        rm: XmmOperand::Reg(2),
        imm: 0,
    };
    assert!(rt; lifts_to(rt.alloc(), insn, &[open(RDX, Width::W32), NEXT]));
    // addsd xmm1, xmm2
    let insn = Insn::Xmm {
        row: XmmRow::Addsd,
        wide: false,
        reg: 1,
        rm: XmmOperand::Reg(2),
        imm: 0,
    };
    assert!(rt; lifts_to(rt.alloc(), insn, &[NEXT]));
}
