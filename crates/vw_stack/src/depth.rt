ghost use Rattle.std.specs.Prelude.{⊤};
ghost use Rattle.vw_stack.specs.Stack.{depth_below, depth_rank};
ghost use Rattle.vw_stack.specs.StackOrder.{depth_reflexive, depth_transitive, depth_antisymmetric, depth_falls, depth_strict};

use vw_bits::OutOfMemory;
use vw_lattice::Lattice;

/// How deep a function's stack was probed, in bytes. With a depth of p, every byte from p + 8,192 below the
/// value that rsp had at the function's entry up to that value is stack or guard. A greater depth is lower,
/// and every depth is valid.
#[derive(Clone, Copy, Debug, PartialEq, Eq)]
pub struct Depth(pub u64);

impl Lattice for Depth {
    type Bounds = ();

    ghost valid = { λ bounds depth. ⊤ };

    ghost well_formed = { λ depth. ⊤ };

    ghost below = { depth_below };

    ghost rank = { λ bounds depth. depth_rank depth };

    fn leq(&self, other: &Self) -> bool {
        other.0 <= self.0
    }

    fn join(&mut self, other: &Self, _bounds: &()) -> Result<bool, OutOfMemory> {
        let shallower = other.0 < self.0;
        if shallower {
            self.0 = other.0;
        }
        Ok(shallower)
    }

    fn copy(&self) -> Result<Self, OutOfMemory> {
        Ok(*self)
    }

    ghost reflexive = { λ b x v. depth_reflexive x };

    ghost transitive = { λ b x y z u v w f g. depth_transitive x y z f g };

    ghost antisymmetric = { λ b x y v w f g. depth_antisymmetric x y f g };

    ghost rank_falls = { λ b x y v w f. depth_falls x y f };

    ghost rank_strict = { λ b x y v w f same. depth_strict x y f same };
}
