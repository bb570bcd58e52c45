use crate::{Compare, Flow, Operand, Stmt, Stmts, Var};
use vw_insn::{Base, Cond, Mem, Reg, Width};

const TOP: Mem = Mem {
    base: Base::Reg(Reg::Rsp),
    index: None,
    disp: 0,
};

// LEAVE (SDM volume 2, "LEAVE"): rsp becomes rbp, and rbp is popped.
const LEAVE: [Stmt; 4] = [
    Stmt::Copy {
        dst: Var::Reg(Reg::Rsp),
        src: Var::Reg(Reg::Rbp),
    },
    Stmt::Load {
        dst: Var::Tmp,
        size: 8,
        to: Width::W64,
        signed: false,
        mem: TOP,
    },
    Stmt::Sum {
        dst: Var::Reg(Reg::Rsp),
        a: Var::Reg(Reg::Rsp),
        b: Operand::Imm(8),
        minus: false,
    },
    Stmt::Copy {
        dst: Var::Reg(Reg::Rbp),
        src: Var::Tmp,
    },
];

// A word of memory is compared with 5, and control goes back where they are equal.
const COMPARE: [Stmt; 4] = [
    Stmt::Flow(Flow::Next),
    Stmt::Load {
        dst: Var::Tmp,
        size: 4,
        to: Width::W32,
        signed: false,
        mem: TOP,
    },
    Stmt::Flags {
        fact: Some(Compare {
            w: Width::W32,
            a: Var::Tmp,
            b: Operand::Imm(5),
        }),
    },
    Stmt::Flow(Flow::Branch {
        cond: Cond::E,
        rel: -4,
    }),
];

/// No statement, and the most that there can be.
#[test]
fn holds_eight(rt: HostRuntime) {
    let mut stmts = Stmts::new(rt.alloc());
    assert!(rt; stmts.as_slice().is_empty());
    stmts.add(LEAVE[0]);
    stmts.add(LEAVE[1]);
    stmts.add(LEAVE[2]);
    stmts.add(LEAVE[3]);
    assert!(rt; stmts.as_slice() == LEAVE.as_slice());
    stmts.add(COMPARE[0]);
    stmts.add(COMPARE[1]);
    stmts.add(COMPARE[2]);
    stmts.add(COMPARE[3]);
    assert!(rt; &stmts.as_slice()[..4] == LEAVE.as_slice());
    assert!(rt; &stmts.as_slice()[4..] == COMPARE.as_slice());
}
