// The row of a transition in a sheet: its label and its two bags.
ghost use Rattle.std.specs.Prelude.{◌≡◌, ◌<◌, ◌^◌};
ghost use Rattle.finite.specs.Below.{sum_below};
ghost use Rattle.format.specs.Sheets.{weights_from, light_at};
ghost use Rattle.reader.specs.Offsets.{bag_at};

use super::bits::field;
use super::fields::Fields;
use super::widths::{LABEL_WIDTH, WEIGHT_WIDTH};
use net::bag::Bag;
use net::limits::LARGEST_BAG;
use net::numbers::{PlaceNo, TransitionNo};

// The row of a transition that the sheet has.
#[derive(Clone, Copy)]
pub(crate) struct Row<'a> {
    pub(crate) fields: Fields<'a>,
    pub(crate) transition: TransitionNo,
    ghost inside: { transition.0 < fields.head.transitions },
}

impl<'a> Row<'a> {
    // The bit at which a bag begins.
    fn bag_at(&self, bag: Bag) -> usize
        ensures at { result ≡ bag_at bag self.now.fields.head.places self.now.transition.0 }
        ensures low { result < 2 ^ 21 }
    {
        let head = self.fields.head;
        let first = head.row_at(self.transition) + LABEL_WIDTH;
        match bag {
            Bag::Cause => first,
            Bag::Effect => first + WEIGHT_WIDTH * usize::from(head.places),
        }
    }

    // The weight at a place, in a bag.
    pub(crate) fn weight(&self, bag: Bag, place: PlaceNo) -> u8
        requires { place.0 < self.now.fields.head.places }
        ensures { result ≡ weights_from self.now.fields.bytes.now (bag_at bag self.now.fields.head.places self.now.transition.0) place.0 }
    {
        let at = self.bag_at(bag);
        field::<WEIGHT_WIDTH>(self.fields.bytes, at + WEIGHT_WIDTH * usize::from(place.0)) as u8
    }

    // The size of a bag.
    fn size(&self, bag: Bag) -> u16
        ensures { result ≡ sum_below self.now.fields.head.places (weights_from self.now.fields.bytes.now (bag_at bag self.now.fields.head.places self.now.transition.0)) }
    {
        let Fields { bytes, head } = self.fields;
        let at = self.bag_at(bag);
        (0..head.places)
            .map(|p| field::<WEIGHT_WIDTH>(bytes, at + WEIGHT_WIDTH * usize::from(p)))
            .sum()
    }

    // Whether neither bag has a size above 255.
    pub(crate) fn is_light(&self) -> bool
        ensures { result ≡ light_at self.now.fields.bytes.now self.now.fields.head.places self.now.transition.0 }
    {
        self.size(Bag::Cause) <= LARGEST_BAG && self.size(Bag::Effect) <= LARGEST_BAG
    }
}
