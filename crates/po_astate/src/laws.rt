// Laws of states: their order, joins and rounding.
ghost use Rattle.std.specs.Prelude.{◌≡◌, ◌↔◌, ℕ, Bool, true};
ghost use Rattle.po_bases.specs.General.{IsJoin};
ghost use Rattle.po_astate.specs.States as states;
ghost use Rattle.po_astate.specs.States.{IsState, StateBelow};
ghost use Rattle.po_astate.specs.Rounding.{round_state};
ghost use Rattle.po_astate.specs.Ranks.{IsRanked};
ghost use Rattle.po_astate.specs.Proper.{Shape, IsProperState, HasEnds};
ghost use Rattle.po_astate.specs.ProperRanks.{rank_of, height_of};
ghost use Rattle.po_interval.specs.declared.thresholds.Thresholds.{Thresholds};
ghost use Rattle.po_astate.specs.declared.state.AState.{AState};
ghost use Rattle.po_astate.specs.declared.state.AState.TheVariants.{Bottom};

use po_interval::{
    join_of_members_is_least, members_are_ordered, rounding_is_to_the_nearest, rounding_widens,
};

/// `below_state` tells an order of the states of a function, in which `Bottom` is least, and `join_state` gives the least
/// upper bound of two. It does nothing.
pub fn states_are_joined()
    ensures joined { (registers slot_count : ℕ) → IsJoin (IsState registers slot_count) (λ s u. states.below_state s u ≡ true) states.join_state }
    ensures exact { (registers slot_count : ℕ) (s u : AState) → IsState registers slot_count s → IsState registers slot_count u →
        (states.below_state s u ≡ true) ↔ StateBelow s u }
    ensures least { (s : AState) → states.below_state Bottom s ≡ true }
{
    members_are_ordered();
    join_of_members_is_least();
}

/// A rounded state is one of the same function and above the state, and greater states are rounded to greater ones. It
/// does nothing.
pub fn rounded_states_are_above()
    ensures stays { (registers slot_count : ℕ) (s : AState) (th : Thresholds) (head : Bool) → IsState registers slot_count s → IsState registers slot_count (round_state s th head) }
    ensures above { (s : AState) (th : Thresholds) (head : Bool) → StateBelow s (round_state s th head) }
    ensures monotone { (s u : AState) (th : Thresholds) (head : Bool) → StateBelow s u → StateBelow (round_state s th head) (round_state u th head) }
{
    rounding_widens();
}

/// Each proper state of a function has a rank of at most the function's height, and a state strictly above another has
/// the greater rank. It does nothing.
pub fn proper_states_have_ranks()
    ensures { (f : Shape) → IsRanked (IsProperState f) StateBelow (rank_of f) (height_of f) }
{
    members_are_ordered();
}

/// The join of two proper states of a function is proper; so is a rounded one, where 0 and both ends of the type of each
/// register are coarse thresholds. It does nothing.
pub fn proper_states_stay_proper()
    ensures joined { (f : Shape) (s u : AState) → IsProperState f s → IsProperState f u → IsProperState f (states.join_state s u) }
    ensures rounded { (f : Shape) (s : AState) (head : Bool) → HasEnds f → IsProperState f s → IsProperState f (round_state s f.thresholds head) }
{
    members_are_ordered();
    join_of_members_is_least();
    rounding_is_to_the_nearest();
    rounding_widens();
}
