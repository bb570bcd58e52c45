ghost use Rattle.std.specs.Prelude.{◌≡◌, None, IfErr, OnOk};
ghost use Rattle.vw_elf.specs.Faults.{fault_in as elf_fault_in};
ghost use Rattle.vw_dynamic.specs.Faults.{fault_in as dynamic_fault_in};
ghost use Rattle.vw_layout.specs.Faults.{fault_in, Tells};

use thiserror::Error;
use vw_bits::OutOfMemory;
use vw_dynamic::DynError;
use vw_elf::ElfError;

/// Why a file could not be read as a module.
#[derive(Clone, Copy, Debug, PartialEq, Eq, Error)]
pub enum ModuleError {
    /// A rule of 1 to 36 does not hold of the file. `rule` is the lowest that does not, and `offset` the
    /// file offset that it names: that of the first item that breaks it.
    #[error("rule {rule} is broken at offset {offset}")]
    Malformed { rule: u8, offset: u64 },
    /// The allocator refused a request.
    #[error("out of memory")]
    Memory(OutOfMemory),
}

impl From<ElfError> for ModuleError {
    ghost from_gives = { λ error e. fault_in e ≡ elf_fault_in error };

    fn from(error: ElfError) -> ModuleError {
        match error {
            ElfError::Fault { rule, offset } => ModuleError::Malformed { rule, offset },
            ElfError::Memory(error) => ModuleError::Memory(error),
        }
    }
}

impl From<DynError> for ModuleError {
    ghost from_gives = { λ error e. fault_in e ≡ dynamic_fault_in error };

    fn from(error: DynError) -> ModuleError {
        match error {
            DynError::Fault { rule, offset } => ModuleError::Malformed { rule, offset },
            DynError::Memory(error) => ModuleError::Memory(error),
        }
    }
}

// The answer of one rule: an error where the rule is broken, with the offset that it names.
pub(crate) fn refuse(rule: u8, broken: Option<u64>) -> Result<(), ModuleError>
    ensures holds { OnOk result (broken ≡ None) }
    ensures broken { IfErr result (Tells rule broken) }
{
    match broken {
        None => Ok(()),
        Some(offset) => Err(ModuleError::Malformed { rule, offset }),
    }
}
