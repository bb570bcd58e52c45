ghost use Rattle.std.specs.Prelude.{⊤};
ghost use Rattle.vw_stack.specs.Stack.{offset_below, offset_rank};
ghost use Rattle.vw_stack.specs.StackOrder.{offset_reflexive, offset_transitive, offset_antisymmetric, offset_falls, offset_strict};

use vw_bits::OutOfMemory;
use vw_lattice::Lattice;

/// How far the value of a register is from the value that rsp had at the function's entry, in bytes,
/// where that is known. A known offset is below `Unknown`, and no known offset is below another. Every
/// offset is valid.
#[derive(Clone, Copy, Debug, PartialEq, Eq)]
pub enum Offset {
    /// Nothing is known of the distance.
    Unknown,
    /// The value is that of rsp at the entry plus so many bytes; below it where negative.
    Known(i64),
}

impl Lattice for Offset {
    type Bounds = ();

    ghost valid = { λ bounds offset. ⊤ };

    ghost well_formed = { λ offset. ⊤ };

    ghost below = { offset_below };

    ghost rank = { λ bounds offset. offset_rank offset };

    fn leq(&self, other: &Self) -> bool {
        match (self, other) {
            (_, Offset::Unknown) => true,
            (Offset::Unknown, Offset::Known(_)) => false,
            (Offset::Known(low), Offset::Known(high)) => *low == *high,
        }
    }

    fn join(&mut self, other: &Self, _bounds: &()) -> Result<bool, OutOfMemory> {
        match *self {
            Offset::Unknown => Ok(false),
            Offset::Known(mine) => {
                let same = match *other {
                    Offset::Known(theirs) => mine == theirs,
                    Offset::Unknown => false,
                };
                if !same {
                    *self = Offset::Unknown;
                }
                Ok(!same)
            }
        }
    }

    fn copy(&self) -> Result<Self, OutOfMemory> {
        Ok(*self)
    }

    ghost reflexive = { λ b x v. offset_reflexive x };

    ghost transitive = { λ b x y z u v w f g. offset_transitive x y z f g };

    ghost antisymmetric = { λ b x y v w f g. offset_antisymmetric x y f g };

    ghost rank_falls = { λ b x y v w f. offset_falls x y f };

    ghost rank_strict = { λ b x y v w f same. offset_strict x y f same };
}
