//! What a step leaves open.

use vw_bits::List;

/// What stands for all that is open in one step.
#[derive(Debug, Drop)]
pub struct Choice {
    /// In a step of an instruction, number 0 is the open result or the number that a load gives, and number 1 is that of
    /// rdx where two registers are written; a store of an XMM register takes its bytes from both, number 0 first. In a
    /// host step, numbers 0 to 8 are those of rax, rcx, rdx, rsi, rdi and r8 to r11.
    pub numbers: [u64; 10],
    /// The flags that are open: CF, PF, ZF, SF and OF are bits 0 to 4.
    pub flags: u8,
    /// Whether an instruction that may trap does.
    pub trap: bool,
    /// The bytes that a host step leaves below rsp, downwards from rsp - 1. Those that would lie outside the stack are
    /// ignored, and bytes of the stack that the list does not reach stay.
    pub below: List<u8>,
}
