// How many tokens of a bag lie in each group of places.
ghost use Rattle.std.specs.Prelude.{◌≡◌, ℕ, ◌<◌, slice_index, slice_index_or};
ghost use Rattle.net.specs.Bags.{weights};
ghost use Rattle.bisimulation.specs.Rounds.{group_count, same_counts};
ghost use Rattle.fold.specs.Grouped.{groups_of};

use super::grouped::GroupedNet;
use net::bag::{Bag, weight};
use net::interface::Net;
use net::numbers::{PlaceNo, TransitionNo};

impl<'n, 'g, N: Net> GroupedNet<'n, 'g, N> {
    // How many tokens of the bag lie in each group, at the group's leader.
    fn tally(&self, bag: Bag, t: TransitionNo) -> [u16; 64]
        ensures { (g : ℕ) → g < 64 → slice_index result (slice_index_or self.now.groups.now.places.leaders g 0) ≡ group_count (N.model self.now.net.now).places (groups_of self.now.groups.now).same_place (weights bag (N.model self.now.net.now) t.0) g }
    {
        let mut counts = [0; 64];
        for p in 0..self.net.places() {
            let leader = self.groups.places.leader(PlaceNo(p));
            counts[usize::from(leader)] += u16::from(weight(self.net, bag, t, PlaceNo(p)));
        }
        counts
    }

    // The bound is asked as at `Division::leader`.
    /// How many tokens of a transition's bag lie in a place's group.
    #[tactic(auto, using(crate::proofs::GroupSums::group_steps))]
    pub(crate) fn group_weight(&self, bag: Bag, transition: TransitionNo, member: PlaceNo) -> u8
        requires { member.0 < 64 }
        ensures { result ≡ group_count (N.model self.now.net.now).places (groups_of self.now.groups.now).same_place (weights bag (N.model self.now.net.now) transition.0) member.0 }
    {
        let mut sum = 0;
        for p in 0..self.net.places() {
            if self.groups.places.same(PlaceNo(p), member) {
                sum += weight(self.net, bag, transition, PlaceNo(p));
            }
        }
        sum
    }

    /// Whether the bags of two transitions have equally many tokens in each group of places.
    pub(crate) fn same_counts(&self, bag: Bag, t: TransitionNo, u: TransitionNo) -> bool
        ensures { result ≡ same_counts (N.model self.now.net.now) (groups_of self.now.groups.now) (weights bag (N.model self.now.net.now) t.0) (weights bag (N.model self.now.net.now) u.0) }
    {
        let left = self.tally(bag, t);
        let right = self.tally(bag, u);
        (0..self.net.places()).all(|g| {
            let leader = usize::from(self.groups.places.leader(PlaceNo(g)));
            left[leader] == right[leader]
        })
    }
}
