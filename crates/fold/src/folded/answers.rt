// A folded net answers as the net of the groups.
ghost use Rattle.std.specs.Prelude.{◌≡◌, cond};
ghost use Rattle.net.specs.Bags.{weights};
ghost use Rattle.fold.specs.Layer.{fits, folded_by, folded_by_lawful};
ghost use Rattle.arrayvec.specs.ArrayVec.{array_vec_len};
ghost use Rattle.fold.specs.Listing.{StandsFor};

use super::Folded;
use crate::leaders::Leaders;
use net::bag::{Bag, weight};
use net::interface::Net;
use net::node::Node;
use net::numbers::{Label, PlaceNo, TransitionNo};

// Each answer asks `fits` anew: no invariant can say it for good, for an invariant cannot speak of the net below.
impl<'n, 'g, N: Net> Folded<'n, 'g, N> {
    // How many nodes of a kind: the groups, and those of the net below where the grouping does not fit.
    fn count_of<K: Node, const MOST: usize>(&self, leaders: &Leaders<K, MOST>) -> u8
        ensures { result ≡ cond (fits (N.model self.now.below.net.now) self.now.below.groups.now) (array_vec_len leaders.now.listed) (K.count (N.model self.now.below.net.now)) }
    {
        if self.below.fits() {
            leaders.count()
        } else {
            K::count(self.below.net)
        }
    }

    // The node below that stands for a node: its group's leader, and the node itself where the grouping does not fit.
    fn node_below<K: Node, const MOST: usize>(
        &self,
        leaders: &Leaders<K, MOST>,
        node: K,
    ) -> Option<K>
        ensures { StandsFor (fits (N.model self.now.below.net.now) self.now.below.groups.now) (array_vec_len leaders.now.listed) leaders.now.listed.items (K.number node) K.number result }
    {
        if self.below.fits() {
            leaders.get(node)
        } else {
            Some(node)
        }
    }

    // The weight of either bag: that of the group's lowest transition, over the places of the group.
    fn weight(&self, bag: Bag, transition: TransitionNo, place: PlaceNo) -> u8
        ensures { result ≡ weights bag (folded_by (N.model self.now.below.net.now) self.now.below.groups.now) transition.0 place.0 }
    {
        if !self.below.fits() {
            return weight(self.below.net, bag, transition, place);
        }
        let Some(leader) = self.transitions.get(transition) else {
            return 0;
        };
        let Some(member) = self.places.get(place) else {
            return 0;
        };
        self.below.group_weight(bag, leader, member)
    }
}

impl<'n, 'g, N: Net> Net for Folded<'n, 'g, N> {
    ghost model = { λ x. folded_by (N.Net.model x.below.net.now) x.below.groups.now };

    ghost lawful = { λ x. folded_by_lawful (N.Net.model x.below.net.now) x.below.groups.now (N.Net.lawful x.below.net.now) };

    fn places(&self) -> u8 {
        self.count_of(&self.places)
    }

    fn transitions(&self) -> u8 {
        self.count_of(&self.transitions)
    }

    // The questions of `Net` name the kinds, so each label has its own; what the two share is `node_below`.
    fn place_label(&self, place: PlaceNo) -> Option<Label> {
        let leader = self.node_below(&self.places, place)?;
        self.below.net.place_label(leader)
    }

    fn transition_label(&self, transition: TransitionNo) -> Option<Label> {
        let leader = self.node_below(&self.transitions, transition)?;
        self.below.net.transition_label(leader)
    }

    fn cause(&self, transition: TransitionNo, place: PlaceNo) -> u8 {
        self.weight(Bag::Cause, transition, place)
    }

    fn effect(&self, transition: TransitionNo, place: PlaceNo) -> u8 {
        self.weight(Bag::Effect, transition, place)
    }
}
