//! What a processor did with single instructions that stood at 0x100000A2; other registers held 0.

ghost use Rattle.vw_insn.specs.Listed.{IsListed};

use crate::{Access, Flags, Open, Reads, Transfer, Way, Write, effect, may_trap, reads, way_of};
use std::process::Abort;
use vw_insn::{
    AluOp, Base, Cond, HighReg, Insn, Mem, Place, Reg, Source, Width, XmmOperand, XmmRow,
};

#[derive(Clone, Copy)]
struct Witness {
    next: u64,
    before: [(usize, u64); 2],
    flags: [bool; 5],
    read: Reads,
    loaded: u64,
    after: [(usize, u64); 2],
    flags_after: [bool; 5],
    write: Option<Write>,
    transfer: Transfer,
}

// No flag, and what is read and written where an instruction does neither.
const PLAIN: Witness = Witness {
    next: 0x1000_00A4,
    before: [(0, 0); 2],
    flags: [false; 5],
    read: Reads::Nothing,
    loaded: 0,
    after: [(0, 0); 2],
    flags_after: [false; 5],
    write: None,
    transfer: Transfer::Next,
};

// [r13+0x7fffffff]
const BEHIND_R13: Mem = Mem {
    base: Base::Reg(Reg::R13),
    index: None,
    disp: 0x7FFF_FFFF,
};

// [rdi+0x7fffffff]
const BEHIND_RDI: Mem = Mem {
    base: Base::Reg(Reg::Rdi),
    index: None,
    disp: 0x7FFF_FFFF,
};

// [r10+rsi*2+0x80]
const ELEMENT: Mem = Mem {
    base: Base::Reg(Reg::R10),
    index: Some((Reg::Rsi, 2)),
    disp: 0x80,
};

fn registers(words: [(usize, u64); 2]) -> [u64; 16] {
    let mut all = [0; 16];
    for (number, word) in words.iter() {
        if *number < 16 {
            all[*number] = *word;
        }
    }
    all
}

// CF, PF, ZF, SF, OF
fn flags(bits: [bool; 5]) -> Flags {
    Flags {
        carry: bits[0],
        parity: bits[1],
        is_zero: bits[2],
        sign: bits[3],
        overflow: bits[4],
    }
}

// The instruction reads and does what the processor did, where what is open is a store's bytes.
fn does(rt: &impl Abort, insn: Insn, open: u64, witness: Witness)
    requires { IsListed insn }
{
    let before = registers(witness.before);
    let choice = Open {
        numbers: [open, 0],
        flags: flags(witness.flags),
    };
    assert_eq!(rt; reads(&insn, witness.next, &before), witness.read);
    let after = effect(
        &insn,
        witness.next,
        &before,
        flags(witness.flags),
        witness.loaded,
        &choice,
    );
    assert_eq!(rt; after.registers, registers(witness.after));
    assert_eq!(rt; after.flags, flags(witness.flags_after));
    assert_eq!(rt; after.write, witness.write);
    assert_eq!(rt; after.transfer, witness.transfer);
}

#[test]
fn instructions_do_what_a_processor_did(rt: HostRuntime) {
    // add r14d, dword ptr [r13+0x7fffffff]
    let add = Insn::Alu {
        op: AluOp::Add,
        w: Width::W32,
        dst: Place::Reg(Reg::R14),
        src: Source::Place(Place::Mem(BEHIND_R13)),
    };
    does(
        &rt,
        add,
        0,
        Witness {
            next: 0x1000_00A9,
            before: [(13, 0xFFFF_FFFF_A000_1F1A), (14, 0xFF)],
            flags: [false, false, false, true, false],
            read: Reads::One(Access {
                at: 0x2000_1F19,
                size: 4,
            }),
            loaded: 0xE0B4_1464,
            after: [(13, 0xFFFF_FFFF_A000_1F1A), (14, 0xE0B4_1563)],
            flags_after: [false, true, false, true, false],
            ..PLAIN
        },
    );
    // cmp bp, 0x8000
    let cmp = Insn::Alu {
        op: AluOp::Cmp,
        w: Width::W16,
        dst: Place::Reg(Reg::Rbp),
        src: Source::Imm(-0x8000),
    };
    does(
        &rt,
        cmp,
        0,
        Witness {
            before: [(5, 0x0755_1650_7C52_0441), (0, 0)],
            flags: [true, false, true, true, true],
            after: [(5, 0x0755_1650_7C52_0441), (0, 0)],
            flags_after: [true, true, false, true, true],
            ..PLAIN
        },
    );
    // sete bh
    let set = Insn::Set {
        cond: Cond::E,
        dst: Place::High(HighReg::Bh),
    };
    does(
        &rt,
        set,
        0,
        Witness {
            before: [(3, 0x149D_A287_AE4D_4A5D), (0, 0)],
            flags: [false, false, true, false, false],
            after: [(3, 0x149D_A287_AE4D_015D), (0, 0)],
            flags_after: [false, false, true, false, false],
            ..PLAIN
        },
    );
}

#[test]
fn the_stack_moves_as_a_processor_moved_it(rt: HostRuntime) {
    does(
        &rt,
        Insn::Pop { dst: Reg::Rsp },
        0,
        Witness {
            before: [(4, 0x2000_1F98), (0, 0)],
            read: Reads::One(Access {
                at: 0x2000_1F98,
                size: 8,
            }),
            loaded: 0x00FF_0000_8000_0080,
            after: [(4, 0x00FF_0000_8000_0080), (0, 0)],
            ..PLAIN
        },
    );
    does(
        &rt,
        Insn::Leave,
        0,
        Witness {
            before: [(4, 0x2000_1F90), (5, 0x2000_1F8D)],
            read: Reads::One(Access {
                at: 0x2000_1F8D,
                size: 8,
            }),
            loaded: 0xFF80_0101_0000_FF01,
            after: [(4, 0x2000_1F95), (5, 0xFF80_0101_0000_FF01)],
            ..PLAIN
        },
    );
    // call qword ptr [rdi+0x7fffffff]
    let call = Insn::CallInd {
        src: Place::Mem(BEHIND_RDI),
    };
    does(
        &rt,
        call,
        0,
        Witness {
            next: 0x1000_00A8,
            before: [(4, 0x2000_1F80), (7, 0xFFFF_FFFF_A000_1F3A)],
            read: Reads::One(Access {
                at: 0x2000_1F39,
                size: 8,
            }),
            loaded: 0x1000_00A8,
            after: [(4, 0x2000_1F78), (7, 0xFFFF_FFFF_A000_1F3A)],
            write: Some(Write {
                at: 0x2000_1F78,
                size: 8,
                value: 0x1000_00A8,
            }),
            transfer: Transfer::Enter(0x1000_00A8),
            ..PLAIN
        },
    );
    assert_eq!(rt; way_of(&call), Way::Indirect);
    // movd dword ptr [r10+rsi*2+0x80], xmm1
    let movd = Insn::Xmm {
        row: XmmRow::MovdStore,
        wide: false,
        reg: 1,
        rm: XmmOperand::Mem(ELEMENT),
        imm: 0,
    };
    does(
        &rt,
        movd,
        0xFFFF_FFFF_09AD_D2C0,
        Witness {
            before: [(6, 0xBB1A), (10, 0x1FFE_A87C)],
            after: [(6, 0xBB1A), (10, 0x1FFE_A87C)],
            write: Some(Write {
                at: 0x2000_1F30,
                size: 4,
                value: 0x09AD_D2C0,
            }),
            ..PLAIN
        },
    );
    assert!(rt; may_trap(&movd));
}
