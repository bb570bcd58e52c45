ghost use Rattle.std.specs.Prelude.{◌≡◌, ℕ};
ghost use Rattle.vw_values.specs.Stands.{register_of};
ghost use Rattle.vw_domain.specs.Changes.{forget};
ghost use Rattle.vw_domain.specs.Writes.{is_gone};

use vw_values::{Value, Via};

/// The registers that an instruction writes.
#[derive(Clone, Copy, Debug, PartialEq, Eq)]
pub enum Gone {
    /// The one with this number.
    Register(u8),
    /// All that a function need not keep: rax, rcx, rdx, rsi, rdi, r8 to r11, and number 16 (psABI, 3.2.1).
    Unsaved,
    /// Number 16, which holds a number within one instruction.
    Temporary,
}

// Whether an instruction writes a register.
pub(crate) fn is_gone(gone: Gone, register: u8) -> bool
    ensures { result ≡ is_gone gone register }
{
    match gone {
        Gone::Register(d) => register == d,
        Gone::Unsaved => !matches!(register, 3 | 4 | 5 | 12 | 13 | 14 | 15),
        Gone::Temporary => register >= 16,
    }
}

// The register that tells where a tag was read.
pub(crate) fn register_of(via: Via) -> u8
    ensures { result ≡ register_of via }
{
    match via {
        Via::At(r) => r,
        Via::Idx(r) => r,
    }
}

// What a value still says once registers are written: a tag that was read by one of them says nothing.
pub(crate) fn remaining_value(value: Value, gone: Gone) -> Value
    ensures { result ≡ forget (is_gone gone) value }
{
    match value {
        Value::TagOf { table, via } => {
            if is_gone(gone, register_of(via)) {
                Value::Any
            } else {
                Value::TagOf { table, via }
            }
        }
        _ => value,
    }
}
