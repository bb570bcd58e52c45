ghost use Rattle.std.specs.Prelude.{◌≡◌};
ghost use Rattle.vw_stmt.specs.declared.statement.Flow.TheVariants as flow;
ghost use Rattle.vw_stmt.specs.declared.statement.Stmt.TheVariants as stmt;

use crate::{Compare, Operand, Var};
use vw_insn::{Cond, Mem, Width};

/// One step of an instruction. `dst` is what it writes, and what it reads is read before. Sums are taken modulo
/// 2^64. A result of 32 bits clears the upper half of `dst`, and one of 8 or 16 bits keeps the other bits, but for
/// that of `Open` (SDM volume 1, 3.4.1.1). A `mem` on rip counts from the next instruction.
#[derive(Clone, Copy, Debug, PartialEq, Eq)]
pub enum Stmt {
    /// `dst` becomes `c`.
    Set {
        dst: Var,
        c: u64,
    },
    /// `dst` becomes `src`.
    Copy {
        dst: Var,
        src: Var,
    },
    /// The low `from` bits of `src` extended to `to` bits, with their sign where `signed`, else with zeros (SDM
    /// volume 2, "MOVSX/MOVSXD" and "MOVZX"). `from` is 8, 16 or 32 bits, `to` 32 or 64.
    Narrow {
        dst: Var,
        src: Var,
        from: Width,
        to: Width,
        signed: bool,
    },
    /// `a` plus `b`, and where `minus` `a` less `b`, of 64 bits.
    Sum {
        dst: Var,
        a: Var,
        b: Operand,
        minus: bool,
    },
    /// The address of `mem` (SDM volume 2, "LEA").
    Lea {
        dst: Var,
        mem: Mem,
    },
    /// Each bit that the low `w` bits of both `a` and `b` have (SDM volume 2, "AND"). `w` is 32 or 64 bits.
    And {
        dst: Var,
        w: Width,
        a: Var,
        b: Operand,
    },
    /// `dst` times 16: its 64 bits move left by 4 (SDM volume 2, "SAL/SAR/SHL/SHR").
    Shl {
        dst: Var,
    },
    /// Any number of `w` bits, and at 8 and 16 bits any number in the other bits of `dst` too.
    Open {
        dst: Var,
        w: Width,
    },
    /// The low `w` bits of `a` or those of `b`, whichever is left open. `w` is 16, 32 or 64 bits.
    Choose {
        dst: Var,
        w: Width,
        a: Var,
        b: Operand,
    },
    /// Reads `size` bytes at `mem`, and extends the number to `to` bits, with its sign where `signed`, else with
    /// zeros. `size` is 1, 2, 4 or 8, and no wider than `to`.
    Load {
        dst: Var,
        size: u8,
        to: Width,
        signed: bool,
        mem: Mem,
    },
    /// Writes the low `size` bytes of `src` at `mem`. `size` is 1, 2, 4 or 8.
    Store {
        mem: Mem,
        size: u8,
        src: Operand,
    },
    /// Accesses `size` bytes at `mem` for an XMM register: reads them, or where `write` writes any bytes there.
    /// `size` is 4, 8 or 16.
    Touch {
        mem: Mem,
        size: u8,
        write: bool,
    },
    /// The status flags become those of a CMP, and any flags where there is no fact (SDM volume 1, 3.4.3.1).
    Flags {
        fact: Option<Compare>,
    },
    /// Control goes on.
    Flow(Flow),
}

/// How control goes on after an instruction. Each `rel` counts bytes from the next instruction.
#[derive(Clone, Copy, Debug, PartialEq, Eq)]
pub enum Flow {
    /// To the next instruction.
    Next,
    /// To a relative address (SDM volume 2, "JMP").
    Jump { rel: i32 },
    /// To a relative address where the condition holds, else to the next instruction (SDM volume 2, "Jcc").
    Branch { cond: Cond, rel: i32 },
    /// To the address that `src` holds (SDM volume 2, "JMP").
    JumpReg { src: Var },
    /// To a relative address, after the address of the next instruction was pushed: its 8 bytes are written 8 below
    /// rsp, which falls by 8 (SDM volume 2, "CALL").
    Call { rel: i32 },
    /// To the address that `src` holds before the push of the next address, which is as in `Call`.
    CallReg { src: Var },
    /// To the address that the 8 bytes at rsp hold; rsp rises by 8 (SDM volume 2, "RET").
    Ret,
    /// Nowhere: the instruction traps (SDM volume 2, "UD").
    Stop,
}

impl Default for Stmt {
    ghost is_default = { λ blank. blank ≡ stmt.Flow flow.Next };

    /// The statement that does nothing, for places of a list that are not used.
    fn default() -> Stmt {
        Stmt::Flow(Flow::Next)
    }
}
