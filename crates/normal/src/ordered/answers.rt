// An ordered net answers from the net below, at what stands at a position.
ghost use Rattle.std.specs.Prelude.{◌≡◌, ◌<◌, ◌≤◌, length, MatchOption};
ghost use Rattle.net.specs.Bags.{weights};
ghost use Rattle.drawing.specs.Drawn.{drawn};
ghost use Rattle.arrangement.specs.Arrangements.{at};
ghost use Rattle.normal.specs.Ordering.{ordered_net, ordered_net_lawful};

use super::Ordered;
use drawing::Drawing;
use net::bag::{Bag, weight};
use net::interface::Net;
use net::node::{Node, label_number};
use net::numbers::{Label, PlaceNo, TransitionNo};

// The node that stands at a position in an order of a net's nodes, none past the last.
fn standing<K: Node>(net: &Drawing, order: &[u8], position: K) -> Option<K>
    requires { K.count (drawn net.now) ≤ length order.now }
    ensures { MatchOption result (K.count (drawn net.now) ≤ K.number position) (λ k. (K.number position < K.count (drawn net.now)) × (K.number k ≡ at order.now (K.number position))) }
{
    let i = position.number();
    (i < K::count(net)).then(|| K::nth(order[usize::from(i)]))
}

impl Ordered<'_> {
    // The weight of a transition's bag at a place, by what stands at their positions.
    fn weight(&self, bag: Bag, transition: TransitionNo, place: PlaceNo) -> u8
        ensures { result ≡ weights bag (ordered_net self.now) transition.0 place.0 }
    {
        let t = standing(self.net, &self.ranking.transitions, transition);
        let p = standing(self.net, &self.ranking.places, place);
        match (t, p) {
            (Some(t), Some(p)) => weight(self.net, bag, t, p),
            _ => 0,
        }
    }
}

impl Net for Ordered<'_> {
    ghost model = { λ x. ordered_net x };

    ghost lawful = { ordered_net_lawful };

    fn places(&self) -> u8 {
        self.net.places()
    }

    fn transitions(&self) -> u8 {
        self.net.transitions()
    }

    // The questions of `Net` name the kinds, so each label has its own; what the two share is `standing`. A transition's label is read
    // as a number: of the transitions' order nothing is kept here, so what stands at a position might be past the last, labelled 0.
    fn place_label(&self, place: PlaceNo) -> Option<Label> {
        let below = standing(self.net, &self.ranking.places, place)?;
        self.net.place_label(below)
    }

    fn transition_label(&self, transition: TransitionNo) -> Option<Label> {
        let below = standing(self.net, &self.ranking.transitions, transition)?;
        Some(Label(label_number(self.net, below)))
    }

    fn cause(&self, transition: TransitionNo, place: PlaceNo) -> u8 {
        self.weight(Bag::Cause, transition, place)
    }

    fn effect(&self, transition: TransitionNo, place: PlaceNo) -> u8 {
        self.weight(Bag::Effect, transition, place)
    }
}
