ghost use Rattle.std.specs.Prelude.{◌≡◌, ◌↔◌, List, IsTrue, Some};
ghost use Rattle.vw_names.specs.declared.spot.Spot.{Spot};
ghost use Rattle.vw_domain.specs.State.{Fits};
ghost use Rattle.vw_domain.specs.Abstract.{abstract_of};
ghost use Rattle.vw_domain.specs.Branches.{MayGo, edge_state};
ghost use Rattle.vw_domain.specs.Refines.{IsComparison, rule_told, HoldsPlaces, FrameHoldsPlaces};
ghost use Rattle.vw_domain.specs.Sites.{Site};

use crate::edge_tags::tags_of;
use crate::refines::{Comparison, both, edge_row, edge_slots};
use crate::state::State;
use vw_values::{Bounds, below_is_sound, equal_is_sound};

impl State {
    /// What is known along the edge of a branch that a comparison tells of, and whether control may go along it: the
    /// values in the class of the flags are refined, and where one of them is the tag of a table's entry that a register
    /// told, the addresses and indices in the class of that register get the tag. Control may not go along it where no
    /// number of such a value passes, or an address or index has another tag. Takes no memory.
    pub fn take_edge(&mut self, comparison: Comparison, bounds: &Bounds) -> bool
        requires comparison { IsComparison comparison }
        ensures edge { (site : Site) (places : List Spot)
            → site.bounds ≡ bounds.now → HoldsPlaces places self.old
            → (IsTrue result
            ↔ MayGo site places (abstract_of self.old) (Some (rule_told comparison))) }
        ensures form { (site : Site) (places : List Spot)
            → site.bounds ≡ bounds.now → HoldsPlaces places self.old
            → abstract_of self.new
            ≡ edge_state site places (abstract_of self.old) (Some (rule_told comparison)) }
        ensures fits { Fits bounds.now self.old → Fits bounds.now self.new }
    {
        bounds.are_bounds();
        below_is_sound();
        equal_is_sound();
        let parts = &mut *self.parts;
        let tags = tags_of(parts, comparison);
        let in_row = edge_row(
            &mut parts.registers,
            &parts.classes,
            comparison,
            &tags,
            bounds,
        );
        let in_slots = edge_slots(&mut parts.slots, &parts.classes, comparison, &tags, bounds);
        both(in_row, in_slots)
    }
}

/// Each place that is there in a state is one of those of the frame, so that `take_edge` may be read with these.
pub fn frame_holds_places()
    ensures { FrameHoldsPlaces }
{}
