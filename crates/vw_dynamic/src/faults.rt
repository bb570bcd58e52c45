ghost use Rattle.std.specs.Prelude.{◌≡◌, None, IfErr, OnOk};
ghost use Rattle.vw_dynamic.specs.Faults.{Tells};

use thiserror::Error;
use vw_bits::OutOfMemory;

/// Why the dynamic section of a file could not be read.
#[derive(Clone, Copy, Debug, PartialEq, Eq, Error)]
pub enum DynError {
    /// A rule of 15 to 26 does not hold of the file. `rule` is the lowest that does not, and `offset` the
    /// file offset that it names: that of the first header, entry or relocation that breaks it.
    #[error("rule {rule} is broken at offset {offset}")]
    Fault { rule: u8, offset: u64 },
    /// The allocator refused a request.
    #[error("out of memory")]
    Memory(OutOfMemory),
}

// The answer of one rule: a fault where the rule is broken, with the offset that it names.
pub(crate) fn refuse(rule: u8, broken: Option<u64>) -> Result<(), DynError>
    ensures holds { OnOk result (broken ≡ None) }
    ensures broken { IfErr result (Tells rule broken) }
{
    match broken {
        None => Ok(()),
        Some(offset) => Err(DynError::Fault { rule, offset }),
    }
}
