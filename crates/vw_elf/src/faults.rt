ghost use Rattle.std.specs.Prelude.{◌≡◌, Some, None, IfErr, OnOk};
ghost use Rattle.vw_bits.specs.Rules.{unless};
ghost use Rattle.vw_elf.specs.Faults.{Tells};

use thiserror::Error;
use vw_bits::OutOfMemory;

/// Why the headers of a file could not be read.
#[derive(Clone, Copy, Debug, PartialEq, Eq, Error)]
pub enum ElfError {
    /// A rule of 1 to 14 does not hold of the file. `rule` is the lowest that does not, and `offset` the
    /// file offset that it names: that of the first header, field or byte that breaks it. Of the rules on
    /// the file's length, rule 1 names the greatest length, 67,108,864, and rule 2 the file's own length,
    /// below 64.
    #[error("rule {rule} is broken at offset {offset}")]
    Fault { rule: u8, offset: u64 },
    /// The allocator refused a request.
    #[error("out of memory")]
    Memory(OutOfMemory),
}

// The answer of one rule: a fault where the rule is broken, with the offset that it names.
pub(crate) fn refuse(rule: u8, broken: Option<u64>) -> Result<(), ElfError>
    ensures holds { OnOk result (broken ≡ None) }
    ensures broken { IfErr result (Tells rule broken) }
{
    match broken {
        None => Ok(()),
        Some(offset) => Err(ElfError::Fault { rule, offset }),
    }
}

// `None` where a rule on the whole file holds, and else the offset that it names.
pub(crate) fn unless(holds: bool, offset: u64) -> Option<u64>
    ensures { result ≡ unless holds offset }
{
    if holds { None } else { Some(offset) }
}
