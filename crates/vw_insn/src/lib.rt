//! Instructions of x86-64 as values: registers, operands, operations, and one variant for each form
//! of instruction that guest code may hold. The names are those of the Intel SDM, volume 2.
#![tactic(auto)]

mod equality;
mod instruction;
mod laws;
mod mnemonics;
mod names;
mod operands;
mod operations;
mod printed;
mod printing;
mod registers;
mod words;
mod xmm;

pub use equality::same_insn;
pub use instruction::Insn;
pub use laws::registers_are_numbered;
pub use operands::{Base, Count, Mem, Place, Source, XmmOperand};
pub use operations::{AluOp, BitsOp, Cond, MulDivOp, ShiftOp, UnaryOp};
pub use printing::text;
pub use registers::{HighReg, Reg, Width};
pub use words::word_of;
pub use xmm::{XmmRole, XmmRow};

#[cfg(test)]
mod tests;
