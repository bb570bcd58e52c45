ghost use Rattle.std.specs.Prelude.{◌≡◌, ◌↔◌, [], length, IsTrue, IsOk, IfOk, OnOk, OnErr};
ghost use Rattle.vw_lattice.specs.Order.{IsJoin, IsLeast, TellsChange};
ghost use Rattle.vw_names.specs.Division.{IsDivision, Same, Leaves, LeavesBetween, Follows, division_below, IsRefinement};
ghost use Rattle.vw_names.specs.DivisionOrder.{division_transitive, division_antisymmetric, division_rank, division_strict};
ghost use Rattle.vw_names.specs.Groups.{AreGroups};
ghost use Rattle.vw_names.specs.Spot.{number, slot_number};

use crate::groups::groups;
use crate::lookup::root_of;
use crate::moves::{enter, leave, leave_between};
use crate::order::{are_same, is_coarser};
use crate::refine::refine;
use crate::spot::{Spot, number_of};
use std::alloc::Global;
use std::marker::Model;
use vw_bits::{List, OutOfMemory};
use vw_lattice::Lattice;

/// A division of places into classes of equal value. Contracts see it as the list, ascending by place, of the
/// places that are not the least of their class, each with that least place, by their numbers: one list for
/// each division. A coarser division is lower, and every division is valid.
#[derive(Debug, Drop)]
pub struct Classes {
    entries: Vec<(u128, u128)>,
}

impl Model for Classes {
    ghost use Rattle.std.specs.Prelude.{List, ℕ};
    ghost use Rattle.std.specs.Coded.{coded_list, coded_ℕ, coded×};
    ghost use Rattle.vw_names.specs.Division.{IsDivision};
    ghost use Rattle.vw_names.specs.Spot.{NamesPlaces};

    ghost Value = { List (ℕ × ℕ) };

    ghost coded = { coded_list (coded× coded_ℕ coded_ℕ) };

    ghost view = { λ classes. classes.entries.items };

    ghost invariant = { λ classes. IsDivision classes.entries.items × NamesPlaces classes.entries.items };
}

impl Classes {
    /// Each place alone, in a division whose memory will come from `alloc`. Takes no memory.
    pub fn new(alloc: Global) -> Classes
        ensures { result ≡ [] }
    {
        Classes {
            entries: Vec::new(alloc),
        }
    }

    /// Puts each place alone. Takes no memory.
    pub fn clear(&mut self)
        ensures { self.new ≡ [] }
    {
        self.entries.truncate(0);
    }

    /// Makes the classes equal to other ones, in the memory that they have where this is enough. Where memory is refused,
    /// each place is alone.
    pub fn copy_from(&mut self, other: &Classes) -> Result<(), OutOfMemory>
        ensures ok { OnOk result (self.new ≡ other.now) }
        ensures err { OnErr result (self.new ≡ []) }
    {
        self.entries.clear();
        self.entries.extend_from_slice(&other.entries)?;
        Ok(())
    }

    /// Whether two places are in one class.
    pub fn same(&self, a: Spot, b: Spot) -> bool
        ensures { IsTrue result ↔ Same self.now (number a) (number b) }
    {
        root_of(&self.entries, number_of(a)) == root_of(&self.entries, number_of(b))
    }

    /// Takes a place out of its class: it stands in a class of its own afterwards. Takes no memory.
    pub fn leave(&mut self, place: Spot)
        ensures leaves { Leaves (number place) self.old self.new }
        ensures division { IsDivision self.new }
    {
        leave(&mut self.entries, number_of(place));
    }

    /// Takes the slots at the offsets from `low` to `high` - 1 out of their classes: each stands in a class of
    /// its own afterwards. Takes no memory.
    pub fn leave_slots(&mut self, low: i64, high: i64)
        ensures leaves { LeavesBetween (slot_number low) (slot_number high) self.old self.new }
        ensures division { IsDivision self.new }
    {
        let low = number_of(Spot::Slot(low));
        let high = number_of(Spot::Slot(high));
        leave_between(&mut self.entries, low, high);
    }

    /// Takes a place out of its class and puts it into that of another. Where both are one place, it stands
    /// in a class of its own afterwards, and no memory is taken. Where memory is refused, the classes stay as
    /// they were.
    pub fn follow(&mut self, place: Spot, other: Spot) -> Result<(), OutOfMemory>
        ensures ok { OnOk result (Follows (number place) (number other) self.old self.new) }
        ensures err { OnErr result (self.new ≡ self.old) }
        ensures alone { number place ≡ number other → IsOk result }
        ensures division { IsDivision self.new }
    {
        let place = number_of(place);
        let other = number_of(other);
        if place == other {
            leave(&mut self.entries, place);
            return Ok(());
        }
        self.entries.reserve(1)?;
        leave(&mut self.entries, place);
        let least = root_of(&self.entries, other);
        enter(&mut self.entries, place, least)?;
        Ok(())
    }

    /// Whether the division is the other one. Takes no memory.
    pub fn is_same(&self, other: &Classes) -> bool
        ensures { IsTrue result ↔ (self.now ≡ other.now) }
    {
        are_same(&self.entries, &other.entries)
    }

    /// The classes of two places or more, each with its places in order, in the order of their first places.
    pub fn groups(&self) -> Result<List<List<Spot>>, OutOfMemory>
        ensures { IfOk result (AreGroups self.now) }
    {
        let listed = groups(*self.entries.allocator(), &self.entries)?;
        Ok(List::from_vec(listed))
    }
}

impl Lattice for Classes {
    type Bounds = ();

    ghost valid = { λ bounds classes. IsDivision classes };

    ghost well_formed = { IsDivision };

    ghost below = { division_below };

    ghost rank = { λ bounds classes. length classes };

    fn leq(&self, other: &Self) -> bool {
        is_coarser(&self.entries, &other.entries)
    }

    fn join(&mut self, other: &Self, _bounds: &()) -> Result<bool, OutOfMemory>
        ensures kept { IsDivision self.old → IsDivision self.new }
        ensures join { OnOk result (IsDivision self.old → IsDivision other.now
            → IsJoin division_below IsDivision self.old other.now self.new) }
        ensures changed { IfOk result (λ changed. TellsChange changed self.old self.new) }
        ensures formed { OnOk result (IsDivision self.old → IsDivision other.now → IsDivision self.new) }
        ensures least { OnOk result (IsDivision self.old → IsDivision other.now
            → IsLeast division_below IsDivision self.old other.now self.new) }
        ensures refines { OnOk result (IsRefinement self.old other.now self.new) }
        ensures err { OnErr result (self.new ≡ self.old) }
    {
        if is_coarser(&other.entries, &self.entries) {
            return Ok(false);
        }
        let common = refine(*self.entries.allocator(), &self.entries, &other.entries)?;
        self.entries = common;
        Ok(true)
    }

    fn copy(&self) -> Result<Self, OutOfMemory> {
        let entries = self.entries.clone()?;
        Ok(Classes { entries })
    }

    ghost reflexive = { λ b x v p q same. same };

    ghost transitive = { λ b x y z u v w f g. division_transitive x y z f g };

    ghost antisymmetric = { λ b x y v w f g. division_antisymmetric x y v w f g };

    ghost rank_falls = { λ b x y v w f. division_rank x y v w f };

    ghost rank_strict = { λ b x y v w f same. division_strict x y v w f same };
}
