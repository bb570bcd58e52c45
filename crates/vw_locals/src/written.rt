ghost use Rattle.std.specs.Prelude.{◌≡◌, ◌↔◌, ◌<ℤ◌, ◌≤ℤ◌, ◌≤◌, ◌||◌, ℤ, true, [], length, IsTrue, MatchOption, IfOk, OnOk, OnErr, slice_get, Some};
ghost use Rattle.vw_lattice.specs.Order.{IsJoin, IsLeast, TellsChange};
ghost use Rattle.vw_locals.specs.Ranges.{is_written, is_between, IsRanges, IsCommon, written_below, bytes};
ghost use Rattle.vw_locals.specs.RangeOrder.{written_transitive, written_antisymmetric, ranked};

use crate::meet::meet;
use crate::merge::merge;
use crate::search::{are_same, contains, has_all};
use std::alloc::Global;
use std::marker::Model;
use vw_bits::OutOfMemory;
use vw_lattice::Lattice;

/// The set of the written bytes of a frame, by their offsets from the stack pointer at the function's entry.
/// Contracts see it as the list of its maximal ranges, ascending, each with its first and its last offset:
/// one list for each set. A set with more is lower, and every set is valid.
#[derive(Debug, Drop)]
pub struct Written {
    ranges: Vec<(i64, i64)>,
}

impl Model for Written {
    ghost use Rattle.std.specs.Prelude.{List, ℤ};
    ghost use Rattle.std.specs.Coded.{coded_list, coded_ℤ, coded×};
    ghost use Rattle.vw_locals.specs.Ranges.{IsRanges};

    ghost Value = { List (ℤ × ℤ) };

    ghost coded = { coded_list (coded× coded_ℤ coded_ℤ) };

    ghost view = { λ written. written.ranges.items };

    ghost invariant = { λ written. IsRanges written.ranges.items };
}

impl Written {
    /// Nothing written, in a set whose memory will come from `alloc`. Takes no memory.
    pub fn new(alloc: Global) -> Written
        ensures { result ≡ [] }
    {
        Written {
            ranges: Vec::new(alloc),
        }
    }

    /// Adds the offsets from `low` to `high` - 1: none where `high` is at most `low`. Where memory is refused,
    /// the set stays as it was.
    pub fn add(&mut self, low: i64, high: i64) -> Result<(), OutOfMemory>
        ensures ok { OnOk result ((x : ℤ) → is_written self.new x ≡ (is_between low high x || is_written self.old x)) }
        ensures err { OnErr result (self.new ≡ self.old) }
        ensures ranges { IsRanges self.new }
    {
        if low < high {
            merge(&mut self.ranges, &(low, high - 1))?;
        }
        Ok(())
    }

    /// Whether the offsets from `low` to `high` - 1 are all in the set: yes where `high` is at most `low`.
    pub fn holds(&self, low: i64, high: i64) -> bool
        ensures { IsTrue result ↔ ((x : ℤ) → low ≤ℤ x → x <ℤ high → is_written self.now x ≡ true) }
    {
        high <= low || contains(&self.ranges, &(low, high - 1))
    }

    /// The first and the last offset of the maximal range number `i`, ascending and counted from 0. None
    /// exactly where there are at most `i` ranges. Takes no memory.
    pub fn range(&self, i: usize) -> Option<(i64, i64)>
        ensures range { MatchOption result (length self.now ≤ i) (λ range. slice_get self.now i ≡ Some range) }
        ensures maximal { IsRanges self.now }
    {
        let ranges = self.ranges.as_slice();
        if i < ranges.len() {
            Some(ranges[i])
        } else {
            None
        }
    }

    /// Whether the set is the other one. Takes no memory.
    pub fn is_same(&self, other: &Written) -> bool
        ensures { IsTrue result ↔ (self.now ≡ other.now) }
    {
        are_same(&self.ranges, &other.ranges)
    }

    /// Makes the set equal to another one, in the memory that it has where this is enough. Where memory is refused,
    /// nothing is in it.
    pub fn copy_from(&mut self, other: &Written) -> Result<(), OutOfMemory>
        ensures ok { OnOk result (self.new ≡ other.now) }
        ensures err { OnErr result (self.new ≡ []) }
    {
        self.ranges.clear();
        self.ranges.extend_from_slice(&other.ranges)?;
        Ok(())
    }
}

impl Lattice for Written {
    type Bounds = ();

    ghost valid = { λ bounds written. IsRanges written };

    ghost well_formed = { IsRanges };

    ghost below = { written_below };

    ghost rank = { λ bounds written. bytes written };

    fn leq(&self, other: &Self) -> bool {
        has_all(&self.ranges, &other.ranges)
    }

    fn join(&mut self, other: &Self, _bounds: &()) -> Result<bool, OutOfMemory>
        ensures kept { IsRanges self.old → IsRanges self.new }
        ensures join { OnOk result (IsRanges self.old → IsRanges other.now
            → IsJoin written_below IsRanges self.old other.now self.new) }
        ensures changed { IfOk result (λ changed. TellsChange changed self.old self.new) }
        ensures formed { OnOk result (IsRanges self.old → IsRanges other.now → IsRanges self.new) }
        ensures least { OnOk result (IsRanges self.old → IsRanges other.now
            → IsLeast written_below IsRanges self.old other.now self.new) }
        ensures common { OnOk result (IsCommon self.old other.now self.new) }
        ensures err { OnErr result (self.new ≡ self.old) }
    {
        if has_all(&other.ranges, &self.ranges) {
            return Ok(false);
        }
        let common = meet(*self.ranges.allocator(), &self.ranges, &other.ranges)?;
        self.ranges = common;
        Ok(true)
    }

    fn copy(&self) -> Result<Self, OutOfMemory> {
        let ranges = self.ranges.clone()?;
        Ok(Written { ranges })
    }

    ghost reflexive = { λ b x v o is. is };

    ghost transitive = { λ b x y z u v w f g. written_transitive x y z f g };

    ghost antisymmetric = { λ b x y v w f g. written_antisymmetric x y v w f g };

    ghost rank_falls = { λ b x y v w f. (ranked y x v w f).0 };

    ghost rank_strict = { λ b x y v w f same. (ranked y x v w f).1 same };
}
