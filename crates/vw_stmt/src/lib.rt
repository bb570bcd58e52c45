//! Statements: the small steps in which the effect of one instruction is described, each of which computes,
//! accesses memory or transfers control. They say at most what the instruction does and leave the rest open.
#![tactic(auto)]

mod laws;
mod list;
mod operands;
mod statement;

pub use laws::{accesses_are_stated, words_stay};
pub use list::Stmts;
pub use operands::{Compare, Operand, Var};
pub use statement::{Flow, Stmt};

#[cfg(test)]
mod tests;
