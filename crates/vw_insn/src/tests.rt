ghost use Rattle.vw_insn.specs.Listed.{IsListed};

use crate::{
    AluOp, Base, BitsOp, Cond, Count, HighReg, Insn, Mem, MulDivOp, Place, Reg, ShiftOp, Source,
    UnaryOp, Width, XmmOperand, XmmRow, same_insn, text,
};
use std::alloc::Global;
use std::process::Abort;
use vw_bits::Text;

fn expect(rt: &impl Abort, alloc: Global, insn: Insn, next: u32, want: &str)
    requires { IsListed insn }
{
    let mut out = Text::new(alloc);
    let answer = text(alloc, &insn, next, &mut out);
    assert!(rt; answer.is_ok(), "memory");
    assert!(rt; out.as_slice() == want.as_bytes(), "{want}");
}

fn expect_arithmetic(rt: &impl Abort, alloc: Global) {
    let eax = Place::Reg(Reg::Rax);
    let bl = Source::Place(Place::Reg(Reg::Rbx));
    let slot = Mem {
        base: Base::Reg(Reg::Rdi),
        index: Some((Reg::Rcx, 8)),
        disp: -8,
    };
    let absolute = Mem {
        base: Base::None,
        index: None,
        disp: 64,
    };
    let r9 = Source::Place(Place::Reg(Reg::R9));
    let r10 = Place::Reg(Reg::R10);
    expect(
        rt,
        alloc,
        Insn::Alu {
            op: AluOp::Add,
            w: Width::W32,
            dst: eax,
            src: Source::Imm(-1),
        },
        0,
        "add eax, 0xffffffff",
    );
    expect(
        rt,
        alloc,
        Insn::Alu {
            op: AluOp::Or,
            w: Width::W8,
            dst: Place::High(HighReg::Ah),
            src: bl,
        },
        0,
        "or ah, bl",
    );
    expect(
        rt,
        alloc,
        Insn::Alu {
            op: AluOp::Cmp,
            w: Width::W64,
            dst: Place::Mem(slot),
            src: r9,
        },
        0,
        "cmp [rdi+rcx*8-0x8], r9",
    );
    expect(
        rt,
        alloc,
        Insn::Alu {
            op: AluOp::Xor,
            w: Width::W16,
            dst: r10,
            src: Source::Place(Place::Mem(absolute)),
        },
        0,
        "xor r10w, [0x40]",
    );
    expect(
        rt,
        alloc,
        Insn::Test {
            w: Width::W8,
            a: eax,
            b: Source::Imm(-128),
        },
        0,
        "test al, 0x80",
    );
    expect(
        rt,
        alloc,
        Insn::Unary {
            op: UnaryOp::Neg,
            w: Width::W8,
            dst: Place::High(HighReg::Dh),
        },
        0,
        "neg dh",
    );
    expect(
        rt,
        alloc,
        Insn::Unary {
            op: UnaryOp::Inc,
            w: Width::W32,
            dst: Place::Reg(Reg::Rsp),
        },
        0,
        "inc esp",
    );
    expect(
        rt,
        alloc,
        Insn::MulDiv {
            op: MulDivOp::Idiv,
            w: Width::W64,
            src: Place::Reg(Reg::Rbp),
        },
        0,
        "idiv rbp",
    );
    expect(
        rt,
        alloc,
        Insn::Imul {
            w: Width::W16,
            dst: Reg::Rcx,
            src: Place::Reg(Reg::Rdx),
            imm: Some(-128),
        },
        0,
        "imul cx, dx, 0xff80",
    );
    expect(
        rt,
        alloc,
        Insn::Shift {
            op: ShiftOp::Shl,
            w: Width::W64,
            dst: Place::Reg(Reg::Rbx),
            by: Count::Cl,
        },
        0,
        "shl rbx, cl",
    );
    expect(
        rt,
        alloc,
        Insn::Shift {
            op: ShiftOp::Sar,
            w: Width::W16,
            dst: Place::Reg(Reg::Rsi),
            by: Count::Imm(255),
        },
        0,
        "sar si, 0xff",
    );
    expect(rt, alloc, Insn::Widen { w: Width::W16 }, 0, "cbw");
    expect(rt, alloc, Insn::SignA { w: Width::W64 }, 0, "cqo");
}

fn expect_moves(rt: &impl Abort, alloc: Global) {
    let local = Mem {
        base: Base::Reg(Reg::Rbp),
        index: None,
        disp: -4,
    };
    let stack = Mem {
        base: Base::Reg(Reg::Rsp),
        index: None,
        disp: 16,
    };
    let scaled = Mem {
        base: Base::Reg(Reg::R13),
        index: Some((Reg::R12, 2)),
        disp: 0,
    };
    let constant = Mem {
        base: Base::Rip,
        index: None,
        disp: 0x1234,
    };
    let r13 = Source::Place(Place::Reg(Reg::R13));
    expect(
        rt,
        alloc,
        Insn::Mov {
            w: Width::W32,
            dst: Place::Mem(local),
            src: Source::Imm(i32::MAX),
        },
        0,
        "mov [rbp-0x4], 0x7fffffff",
    );
    expect(
        rt,
        alloc,
        Insn::Mov {
            w: Width::W8,
            dst: Place::Reg(Reg::Rsi),
            src: r13,
        },
        0,
        "mov sil, r13b",
    );
    expect(
        rt,
        alloc,
        Insn::MovImm64 {
            dst: Reg::R11,
            imm: 0xDEAD_BEEF_CAFE,
        },
        0,
        "mov r11, 0xdeadbeefcafe",
    );
    expect(
        rt,
        alloc,
        Insn::Push {
            src: Source::Imm(-2),
        },
        0,
        "push 0xfffffffffffffffe",
    );
    expect(rt, alloc, Insn::Pop { dst: Reg::R12 }, 0, "pop r12");
    expect(
        rt,
        alloc,
        Insn::Extend {
            signed: false,
            from: Width::W8,
            to: Width::W32,
            dst: Reg::Rcx,
            src: Place::Reg(Reg::Rdi),
        },
        0,
        "movzx ecx, dil",
    );
    expect(
        rt,
        alloc,
        Insn::Extend {
            signed: true,
            from: Width::W16,
            to: Width::W64,
            dst: Reg::R8,
            src: Place::Mem(stack),
        },
        0,
        "movsx r8, [rsp+0x10]",
    );
    expect(
        rt,
        alloc,
        Insn::Extend {
            signed: true,
            from: Width::W32,
            to: Width::W64,
            dst: Reg::Rdx,
            src: Place::Reg(Reg::Rax),
        },
        0,
        "movsxd rdx, eax",
    );
    expect(
        rt,
        alloc,
        Insn::Imul {
            w: Width::W64,
            dst: Reg::Rsi,
            src: Place::Mem(constant),
            imm: None,
        },
        0,
        "imul rsi, [rip+0x1234]",
    );
    expect(
        rt,
        alloc,
        Insn::Lea {
            w: Width::W32,
            dst: Reg::R14,
            mem: scaled,
        },
        0,
        "lea r14d, [r13+r12*2+0x0]",
    );
    expect(
        rt,
        alloc,
        Insn::Xchg {
            w: Width::W64,
            a: Reg::Rax,
            b: Reg::R15,
        },
        0,
        "xchg rax, r15",
    );
    expect(
        rt,
        alloc,
        Insn::Cmov {
            cond: Cond::Np,
            w: Width::W16,
            dst: Reg::R8,
            src: Place::Reg(Reg::Rbx),
        },
        0,
        "cmovnp r8w, bx",
    );
    expect(rt, alloc, Insn::Leave, 0, "leave");
}

fn expect_jumps(rt: &impl Abort, alloc: Global) {
    let entry = Mem {
        base: Base::None,
        index: Some((Reg::Rax, 4)),
        disp: i32::MIN,
    };
    expect(
        rt,
        alloc,
        Insn::Jcc {
            cond: Cond::Be,
            rel: -5,
        },
        2,
        "jbe -0x3",
    );
    expect(rt, alloc, Insn::Jump { rel: 16 }, 2, "jmp +0x12");
    expect(rt, alloc, Insn::Call { rel: -5 }, 5, "call +0x0");
    expect(
        rt,
        alloc,
        Insn::CallInd {
            src: Place::Mem(entry),
        },
        0,
        "call [rax*4-0x80000000]",
    );
    expect(
        rt,
        alloc,
        Insn::JumpInd {
            src: Place::Reg(Reg::Rcx),
        },
        0,
        "jmp rcx",
    );
    expect(rt, alloc, Insn::Ret, 0, "ret");
    expect(rt, alloc, Insn::Nop, 0, "nop");
    expect(rt, alloc, Insn::Ud2, 0, "ud2");
    expect(rt, alloc, Insn::Endbr, 0, "endbr64");
    expect(
        rt,
        alloc,
        Insn::Set {
            cond: Cond::G,
            dst: Place::Reg(Reg::R9),
        },
        0,
        "setg r9b",
    );
    expect(
        rt,
        alloc,
        Insn::Bits {
            op: BitsOp::Popcnt,
            w: Width::W32,
            dst: Reg::Rax,
            src: Place::Reg(Reg::Rbx),
        },
        0,
        "popcnt eax, ebx",
    );
    expect(
        rt,
        alloc,
        Insn::Bt {
            w: Width::W32,
            a: Reg::Rcx,
            bit: Source::Imm(-8),
        },
        0,
        "bt ecx, 0xfffffff8",
    );
    expect(
        rt,
        alloc,
        Insn::Bswap {
            w: Width::W64,
            dst: Reg::R10,
        },
        0,
        "bswap r10",
    );
}

fn expect_xmm(rt: &impl Abort, alloc: Global) {
    let heap = Mem {
        base: Base::Reg(Reg::Rdi),
        index: None,
        disp: 0,
    };
    let before = Mem {
        base: Base::Rip,
        index: None,
        disp: -8,
    };
    expect(
        rt,
        alloc,
        Insn::Xmm {
            row: XmmRow::MovssLoad,
            wide: false,
            reg: 15,
            rm: XmmOperand::Mem(heap),
            imm: 0,
        },
        0,
        "movss xmm15, [rdi+0x0]",
    );
    expect(
        rt,
        alloc,
        Insn::Xmm {
            row: XmmRow::MovapsStore,
            wide: false,
            reg: 8,
            rm: XmmOperand::Reg(1),
            imm: 0,
        },
        0,
        "movaps xmm1, xmm8",
    );
    expect(
        rt,
        alloc,
        Insn::Xmm {
            row: XmmRow::MovdLoad,
            wide: true,
            reg: 0,
            rm: XmmOperand::Reg(0),
            imm: 0,
        },
        0,
        "movq xmm0, rax",
    );
    expect(
        rt,
        alloc,
        Insn::Xmm {
            row: XmmRow::MovdStore,
            wide: false,
            reg: 3,
            rm: XmmOperand::Reg(11),
            imm: 0,
        },
        0,
        "movd r11d, xmm3",
    );
    expect(
        rt,
        alloc,
        Insn::Xmm {
            row: XmmRow::Cvtsi2sd,
            wide: true,
            reg: 2,
            rm: XmmOperand::Mem(before),
            imm: 0,
        },
        0,
        "cvtsi2sd xmm2, [rip-0x8]",
    );
    expect(
        rt,
        alloc,
        Insn::Xmm {
            row: XmmRow::Cvttss2si,
            wide: true,
            reg: 10,
            rm: XmmOperand::Reg(7),
            imm: 0,
        },
        0,
        "cvttss2si r10, xmm7",
    );
    expect(
        rt,
        alloc,
        Insn::Xmm {
            row: XmmRow::Roundsd,
            wide: false,
            reg: 4,
            rm: XmmOperand::Reg(5),
            imm: 11,
        },
        0,
        "roundsd xmm4, xmm5, 0xb",
    );
}

/// One instruction of each kind, in the syntax of the SDM, volume 2.
#[test]
fn prints_each_kind_of_instruction(rt: HostRuntime) {
    expect_arithmetic(&rt, rt.alloc());
    expect_moves(&rt, rt.alloc());
    expect_jumps(&rt, rt.alloc());
    expect_xmm(&rt, rt.alloc());
    assert!(rt;
        same_insn(&Insn::Jump { rel: 1 }, &Insn::Jump { rel: 1 }),
        "equal"
    );
    assert!(rt;
        !same_insn(&Insn::Jump { rel: 1 }, &Insn::Call { rel: 1 }),
        "not equal"
    );
}
