// What a round keeps together of transitions.
ghost use Rattle.bisimulation.specs.Rounds.{refine};
ghost use Rattle.fold.specs.Grouped.{groups_of};
ghost use Rattle.fold.specs.Kept.{kept_equivalences};

use super::grouped::GroupedNet;
use super::likeness::Likeness;
use net::bag::Bag;
use net::interface::Net;
use net::numbers::TransitionNo;

// An impl for each kind, as in places.rt.
// Transitions that are together stay so if their causes have equally many tokens in each group of places, and so have
// their effects.
impl<'n, 'g, N: Net> Likeness<TransitionNo> for GroupedNet<'n, 'g, N> {
    ghost size = { λ x. (N.Net.model x.net.now).transitions };

    ghost like = { λ x. (refine (N.Net.model x.net.now) (groups_of x.groups.now)).same_transition };

    ghost laws = { λ x. (kept_equivalences (N.Net.model x.net.now) x.groups.now).on_transitions };

    fn size(&self) -> u8 {
        self.net.transitions()
    }

    #[tactic(auto, unfolding(bisimulation::specs::Rounds::refine))]
    fn alike(&self, t: TransitionNo, u: TransitionNo) -> bool {
        self.groups.transitions.same(t, u)
            && self.same_counts(Bag::Cause, t, u)
            && self.same_counts(Bag::Effect, t, u)
    }
}
