// The arrays of a drawing: its places' labels, and a row for each transition.
ghost use Rattle.std.specs.Prelude.{◌≡◌, ◌<◌, ◌≤◌, length};

use net::bag::Bag;
use net::numbers::PlaceNo;

/// A transition: its label, and the weights of its cause and of its effect, one for each place that there can be.
#[derive(Clone, Copy)]
pub struct Row {
    pub label: u16,
    pub cause: [u8; 64],
    pub effect: [u8; 64],
}

impl Row {
    // Here and not at the head, since that file names the types of this one: at the head the imports would form a circle.
    ghost use Rattle.drawing.specs.Arrays.{bag_of, row_with};

    /// The weights of one of the two bags.
    pub fn bag(&self, bag: Bag) -> &[u8; 64]
        ensures weights { result.now ≡ bag_of bag self.now }
        ensures long { length result.now ≡ 64 }
    {
        match bag {
            Bag::Cause => &self.cause,
            Bag::Effect => &self.effect,
        }
    }

    // Replaces one weight. (It matches on the bag as `bag` does. A `bag_mut` that lends the weights was tried: the check finds no
    // proof of what a row holds once a lent array field is given back.)
    pub(crate) fn set_weight(&mut self, bag: Bag, place: PlaceNo, weight: u8)
        requires { place.0 < 64 }
        ensures { self.new ≡ row_with bag self.old place.0 weight }
    {
        match bag {
            Bag::Cause => self.cause[usize::from(place.0)] = weight,
            Bag::Effect => self.effect[usize::from(place.0)] = weight,
        }
    }
}

// The limits are fixed and nothing is allocated, so the arrays have one size, and a count says how many are in use. A vector of
// fixed capacity for each would be no plainer: the count of places goes for the labels and for both bags of every row, which
// would each hold it again, and a net answers its counts as `u8`. Labels are plain numbers here, since past the last node
// stands 0, where there is no node to have a `Label`, and since callers order them, which a `Label` is not made for.
/// As many places and transitions as there can be, of which the first are in use.
#[derive(Clone, Copy)]
pub struct Arrays {
    pub places: u8,
    pub transitions: u8,
    pub place_labels: [u16; 64],
    pub rows: [Row; 128],
    pub ghost few: { (places ≤ 64) × (transitions ≤ 128) },
}
