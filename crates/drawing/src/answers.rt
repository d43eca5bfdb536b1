// A drawing answers as the net that is drawn.
ghost use Rattle.std.specs.Prelude.{◌≡◌};
ghost use Rattle.net.specs.Bags.{weights};
ghost use Rattle.drawing.specs.Arrays.{model_of};
ghost use Rattle.drawing.specs.Drawn.{drawn, drawn_lawful};

use crate::Drawing;
use crate::arrays::Arrays;
use net::bag::Bag;
use net::interface::Net;
use net::numbers::{Label, PlaceNo, TransitionNo};

impl Drawing {
    /// The arrays that hold the net.
    pub fn arrays(&self) -> &Arrays
        ensures { model_of result.now ≡ drawn self.now }
    {
        &self.arrays
    }

    // The weight of a transition's bag at a place, 0 past the last of either.
    fn weight(&self, bag: Bag, transition: TransitionNo, place: PlaceNo) -> u8
        ensures { result ≡ weights bag (drawn self.now) transition.0 place.0 }
    {
        if transition.0 >= self.arrays.transitions || place.0 >= self.arrays.places {
            return 0;
        }
        self.arrays.rows[usize::from(transition.0)].bag(bag)[usize::from(place.0)]
    }
}

impl Net for Drawing {
    ghost model = { λ d. drawn d };

    ghost lawful = { drawn_lawful };

    fn places(&self) -> u8 {
        self.arrays.places
    }

    fn transitions(&self) -> u8 {
        self.arrays.transitions
    }

    // Two bodies, since a place's label stands in an array of its own and a transition's in its row: to share the test of the
    // number would take a closure that reads the one or the other, which is longer.
    fn place_label(&self, place: PlaceNo) -> Option<Label> {
        let used = place.0 < self.arrays.places;
        used.then(|| Label(self.arrays.place_labels[usize::from(place.0)]))
    }

    fn transition_label(&self, transition: TransitionNo) -> Option<Label> {
        let used = transition.0 < self.arrays.transitions;
        used.then(|| Label(self.arrays.rows[usize::from(transition.0)].label))
    }

    fn cause(&self, transition: TransitionNo, place: PlaceNo) -> u8 {
        self.weight(Bag::Cause, transition, place)
    }

    fn effect(&self, transition: TransitionNo, place: PlaceNo) -> u8 {
        self.weight(Bag::Effect, transition, place)
    }
}
