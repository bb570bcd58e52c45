ghost use Rattle.std.specs.Prelude.{◌≡◌};
ghost use Rattle.vw_report.specs.declared.fail.Fail.TheVariants.{Memory};

use vw_bits::OutOfMemory;

// Why something was not read.
#[derive(Clone, Copy)]
pub enum Fail {
    // Memory was refused.
    Memory(OutOfMemory),
    // The bytes do not begin with its text.
    Bad,
}

impl From<OutOfMemory> for Fail {
    ghost from_gives = { λ refused fail. fail ≡ Memory refused };

    fn from(refused: OutOfMemory) -> Fail {
        Fail::Memory(refused)
    }
}
