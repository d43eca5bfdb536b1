// A reader answers as its sheet's net.
ghost use Rattle.std.specs.Prelude.{◌≡◌};
ghost use Rattle.net.specs.Bags.{weights};
ghost use Rattle.format.proofs.Nets.{sheet_lawful};
ghost use Rattle.reader.specs.Readers.{read_net};

use super::SheetReader;
use crate::bits::field;
use crate::fields::Fields;
use crate::head::label_at;
use crate::widths::LABEL_WIDTH;
use net::bag::Bag;
use net::interface::Net;
use net::numbers::{Label, PlaceNo, TransitionNo};

impl<'a> SheetReader<'a> {
    // The weight at a place, in a bag of a transition.
    fn weight(&self, bag: Bag, transition: TransitionNo, place: PlaceNo) -> u8
        ensures { result ≡ weights bag (read_net self.now) transition.0 place.0 }
    {
        let head = self.fields.head;
        if transition.0 < head.transitions && place.0 < head.places {
            self.fields.row(transition).weight(bag, place)
        } else {
            0
        }
    }
}

// The labels of places and of transitions, and causes and effects, are asked apart: users keep the six questions of `Net`.
impl<'a> Net for SheetReader<'a> {
    ghost model = { λ x. read_net x };

    ghost lawful = { λ x. sheet_lawful x.fields.bytes.now x.lawful };

    fn places(&self) -> u8 {
        self.fields.head.places
    }

    fn transitions(&self) -> u8 {
        self.fields.head.transitions
    }

    fn place_label(&self, place: PlaceNo) -> Option<Label> {
        let Fields { bytes, head } = self.fields;
        let inside = place.0 < head.places;
        inside.then(|| Label(field::<LABEL_WIDTH>(bytes, label_at(place))))
    }

    fn transition_label(&self, transition: TransitionNo) -> Option<Label> {
        let Fields { bytes, head } = self.fields;
        let inside = transition.0 < head.transitions;
        inside.then(|| Label(field::<LABEL_WIDTH>(bytes, head.row_at(transition))))
    }

    fn cause(&self, transition: TransitionNo, place: PlaceNo) -> u8 {
        self.weight(Bag::Cause, transition, place)
    }

    fn effect(&self, transition: TransitionNo, place: PlaceNo) -> u8 {
        self.weight(Bag::Effect, transition, place)
    }
}
