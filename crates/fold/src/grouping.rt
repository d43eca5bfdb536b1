// A grouping of a net: which places are together, and which transitions.
ghost use Rattle.std.specs.Prelude.{◌≡◌, ◌≤◌, ◌&&◌, nat_eq};
ghost use Rattle.fold.specs.Divides.{Divided};

use super::division::Division;
use super::likeness::Likeness;
use net::numbers::{PlaceNo, TransitionNo};

// Contracts say `groups_of g` and `Divides .. g`. A model would be the groups alone, without the counts that `fits` and `fold` answer;
// and no ghost field says which net it divides, since a grouping is filled anew and a field cannot speak of a net.
/// Places in groups and transitions in groups. Any two divisions make a grouping; it is one of a net where it divides
/// as many places and as many transitions as that net has.
#[derive(Drop)]
pub struct Grouping {
    pub places: Division<PlaceNo, 64>,
    pub transitions: Division<TransitionNo, 128>,
}

impl Grouping {
    /// A grouping of no places and no transitions.
    pub fn new() -> Grouping
        ensures divides { (result.places.members ≡ 0) × (result.transitions.members ≡ 0) }
        ensures groups { (result.places.groups ≡ 0) × (result.transitions.groups ≡ 0) }
    {
        Grouping {
            places: Division::new(),
            transitions: Division::new(),
        }
    }

    // The places and the transitions of a likeness of both, each in its groups.
    pub(crate) fn by<L: Likeness<PlaceNo> + Likeness<TransitionNo>>(by: &L) -> Grouping
        requires { (⟦<L as Likeness<PlaceNo>>⟧.size by.now ≤ 64) × (⟦<L as Likeness<TransitionNo>>⟧.size by.now ≤ 128) }
        ensures places { Divided (⟦<L as Likeness<PlaceNo>>⟧.size by.now) (⟦<L as Likeness<PlaceNo>>⟧.like by.now) result.places }
        ensures transitions { Divided (⟦<L as Likeness<TransitionNo>>⟧.size by.now) (⟦<L as Likeness<TransitionNo>>⟧.like by.now) result.transitions }
    {
        Grouping {
            places: Division::by(by),
            transitions: Division::by(by),
        }
    }

    // Whether another grouping has as many groups of places, and of transitions.
    pub(crate) fn as_many(&self, other: &Grouping) -> bool
        ensures { result ≡ (nat_eq self.now.places.groups other.now.places.groups && nat_eq self.now.transitions.groups other.now.transitions.groups) }
    {
        self.places.groups == other.places.groups
            && self.transitions.groups == other.transitions.groups
    }
}
