// The reading interface: what every net answers.
ghost use Rattle.std.specs.Prelude.{◌≡◌, ◌<◌, ◌≤◌, MatchOption};
ghost use Rattle.net.specs.Model.{Model, Lawful};

use super::numbers::{Label, PlaceNo, TransitionNo};

/// One net, by six questions. Past the last place or transition a label is none and a weight is 0.
// Users implement these six and no others, so questions on places and on transitions, and on causes and on effects, stay twins;
// `Node` and `weight` ask them by one text. A weight that is 0 past the last is as they implement it.
pub trait Net {
    // the net that answers
    ghost model: { Self → Model };

    // it keeps the limits
    ghost lawful: { (x : Self) → Lawful (model x) };

    /// How many places there are.
    fn places(&self) -> u8
        ensures { result ≡ (model self.now).places };

    /// How many transitions there are.
    fn transitions(&self) -> u8
        ensures { result ≡ (model self.now).transitions };

    /// The label of a place.
    fn place_label(&self, place: PlaceNo) -> Option<Label>
        ensures { MatchOption result ((model self.now).places ≤ place.0) (λ l. (place.0 < (model self.now).places) × (l.0 ≡ (model self.now).place_label place.0)) };

    /// The label of a transition.
    fn transition_label(&self, transition: TransitionNo) -> Option<Label>
        ensures { MatchOption result ((model self.now).transitions ≤ transition.0) (λ l. (transition.0 < (model self.now).transitions) × (l.0 ≡ (model self.now).transition_label transition.0)) };

    /// How many tokens a transition takes from a place.
    fn cause(&self, transition: TransitionNo, place: PlaceNo) -> u8
        ensures { result ≡ (model self.now).cause transition.0 place.0 };

    /// How many tokens a transition puts into a place.
    fn effect(&self, transition: TransitionNo, place: PlaceNo) -> u8
        ensures { result ≡ (model self.now).effect transition.0 place.0 };
}
