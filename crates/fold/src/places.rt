// What a round keeps together of places.
ghost use Rattle.bisimulation.specs.Rounds.{refine};
ghost use Rattle.fold.specs.Grouped.{groups_of};
ghost use Rattle.fold.specs.Kept.{kept_equivalences};

use super::exchange::Exchange;
use super::grouped::GroupedNet;
use super::likeness::Likeness;
use net::interface::Net;
use net::numbers::PlaceNo;

// An impl for each kind: `alike` differs in matter, and the rest only names the kind.
// Places that are together stay so if each can be exchanged for the other.
impl<'n, 'g, N: Net> Likeness<PlaceNo> for GroupedNet<'n, 'g, N> {
    ghost size = { λ x. (N.Net.model x.net.now).places };

    ghost like = { λ x. (refine (N.Net.model x.net.now) (groups_of x.groups.now)).same_place };

    ghost laws = { λ x. (kept_equivalences (N.Net.model x.net.now) x.groups.now).on_places };

    fn size(&self) -> u8 {
        self.net.places()
    }

    #[tactic(auto, unfolding(bisimulation::specs::Rounds::refine))]
    fn alike(&self, p: PlaceNo, q: PlaceNo) -> bool {
        let there = Exchange { from: p, to: q };
        let back = Exchange { from: q, to: p };
        self.groups.places.same(p, q) && there.holds(self) && back.holds(self)
    }
}
