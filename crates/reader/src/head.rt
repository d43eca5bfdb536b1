// The first three fields of a sheet, and where they say that the others begin, in bits.
ghost use Rattle.std.specs.Prelude.{◌≡◌, ◌<◌, ◌^◌, length, MatchOption};
ghost use Rattle.format.specs.Sheets.{label_at, row_at};
ghost use Rattle.reader.specs.Heads.{HeadOf};

use super::bits::field;
use super::widths::{FORM_WIDTH, LABEL_WIDTH, PLACES_WIDTH, TRANSITIONS_WIDTH, WEIGHT_WIDTH};
use net::numbers::{PlaceNo, TransitionNo};

// The form and the two counts.
#[derive(Clone, Copy)]
pub(crate) struct Head {
    pub(crate) form: u8,
    pub(crate) places: u8,
    pub(crate) transitions: u8,
}

impl Head {
    // The head of the bytes, unless they are too short for one.
    pub(crate) fn of(bytes: &[u8]) -> Option<Head>
        ensures { MatchOption result (length bytes.now < 3) (HeadOf bytes.now) }
    {
        (bytes.len() >= 3).then(|| Head {
            form: field::<FORM_WIDTH>(bytes, 0) as u8,
            places: field::<PLACES_WIDTH>(bytes, FORM_WIDTH) as u8,
            transitions: field::<TRANSITIONS_WIDTH>(bytes, FORM_WIDTH + PLACES_WIDTH) as u8,
        })
    }

    // The bit at which the row of a transition begins. It is so low that sums of offsets do not wrap.
    pub(crate) fn row_at(self, transition: TransitionNo) -> usize
        ensures at { result ≡ row_at self.places transition.0 }
        ensures low { result < 2 ^ 20 }
    {
        let width = LABEL_WIDTH + 2 * WEIGHT_WIDTH * usize::from(self.places);
        label_at(PlaceNo(self.places)) + usize::from(transition.0) * width
    }

    // The number of bits of all fields.
    pub(crate) fn bits(self) -> usize
        ensures bits { result ≡ row_at self.places self.transitions }
        ensures low { result < 2 ^ 20 }
    {
        self.row_at(TransitionNo(self.transitions))
    }
}

// The bit at which the label of a place begins.
pub(crate) fn label_at(place: PlaceNo) -> usize
    ensures { result ≡ label_at place.0 }
{
    FORM_WIDTH + PLACES_WIDTH + TRANSITIONS_WIDTH + LABEL_WIDTH * usize::from(place.0)
}
