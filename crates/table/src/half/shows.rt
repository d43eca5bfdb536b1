// What one side shows, and whether it accepts an answer.
ghost use Rattle.std.specs.Prelude.{◌≡◌, ◌<◌, ◌≤◌, cond, nat_lt, ◌&&◌, ◌==◌};
ghost use Rattle.arrangement.specs.Arrangements.{at};
ghost use Rattle.play.specs.declared.kinds.Sort.TheVariants.{Fire};
ghost use Rattle.play.specs.Moves.{most_tokens, covers};
ghost use Rattle.play.specs.Calls.{accepted, reply_says};
ghost use Rattle.play.specs.Shows.{label_tokens, can_fire};
ghost use Rattle.table.specs.Views.{net_of, seated_of, held};

use super::Half;
use net::interface::Net;
use net::node::label_number;
use net::numbers::{Label, PlaceNo, TransitionNo};
use play::kinds::{Lead, Move};

impl Half {
    /// The tokens on places with a label.
    pub fn label_tokens(&self, label: Label) -> u32
        ensures { result ≡ label_tokens (net_of self.now) (held self.now) label.0 }
    {
        // Not `filter`, then `map`: the sum that is promised goes over all places, so `labelled` is nearer to it.
        (0..self.net.places())
            .map(|p| self.labelled(p, label))
            .sum()
    }

    // The tokens on a place, if it has a label. Labels are compared as numbers: the words of play speak of the model, which has 0 past
    // the last node, and an `Option` would need a bound on the node.
    fn labelled(&self, place: u8, label: Label) -> u32
        requires { place < (net_of self.now).places }
        ensures value { result ≡ cond ((net_of self.now).place_label place == label.0) (at (held self.now) place) 0 }
        ensures bound { result ≤ most_tokens }
    {
        if label_number(&self.net, PlaceNo(place)) == label.0 {
            self.tokens_at(place)
        } else {
            0
        }
    }

    /// Whether a transition with a label can fire.
    pub fn can_fire(&self, label: Label) -> bool
        ensures { result ≡ can_fire (net_of self.now) (held self.now) label.0 }
    {
        (0..self.net.transitions()).any(|t| self.fires(t, label))
    }

    /// Whether an answer to a lead is accepted.
    pub fn accepts(&self, lead: Lead, number: u8) -> bool
        ensures { result ≡ accepted (reply_says (seated_of self.now) (held self.now) lead.sort lead.seat.0 number) }
    {
        self.reply(lead, number).is_ok()
    }

    // Whether a transition has a label and can fire; labels are compared as in `labelled`.
    fn fires(&self, transition: u8, label: Label) -> bool
        requires { transition < (net_of self.now).transitions }
        ensures { result ≡ ((net_of self.now).transition_label transition == label.0 && covers (net_of self.now) (held self.now) Fire transition) }
    {
        let transition = TransitionNo(transition);
        label_number(&self.net, transition) == label.0 && self.enables(transition)
    }

    // Whether a transition is there and can fire. It is kept out of line, so that the search for a label has no loop over the
    // places inside and goes from row to row by one addition; and it tests the number here, so that no turn of that loop does.
    #[inline(never)]
    fn enables(&self, transition: TransitionNo) -> bool
        ensures { result ≡ (nat_lt transition.0 (net_of self.now).transitions && covers (net_of self.now) (held self.now) Fire transition.0) }
    {
        transition.0 < self.net.transitions() && self.covers(Move::fire(transition))
    }
}
