// The places and the transitions of a net in an order.

use super::rows::RowAlong;
use drawing::arrays::Arrays;
use std::cmp::Ordering;

/// The place that stands at each position, and the transition that stands at each position. Entries past the counts of the net
/// say nothing. (Nothing is allocated, and the counts are the net's.)
#[derive(Clone, Copy)]
pub struct Ranking {
    pub places: [u8; 64],
    pub transitions: [u8; 128],
}

impl Ranking {
    ghost use Rattle.std.specs.Prelude.{◌≡◌, ◌<◌};
    ghost use Rattle.drawing.specs.Arrays.{model_of};
    ghost use Rattle.arrangement.specs.Arrangements.{at, row};
    ghost use Rattle.search.specs.Along.{numbers_of};
    ghost use Rattle.search.specs.Rows.{Compares, rows_of};
    ghost use Rattle.search.specs.Descent.{Candidate};

    // The row of the transition at a position.
    pub(crate) fn row<'n>(&'n self, net: &'n Arrays, position: usize) -> RowAlong<'n>
        requires good { Candidate (model_of net.now) self.now }
        requires within { position < net.now.transitions }
        ensures here { result.net.now ≡ net.now }
        ensures numbers { numbers_of result ≡ row (model_of net.now) (at self.now.places) (at self.now.transitions position) }
    {
        RowAlong {
            net,
            places: &self.places,
            transition: self.transitions[position] as usize,
        }
    }

    // Compares the rows of a net with those in another ranking of it, from the first position on.
    pub(crate) fn compare(&self, other: &Ranking, net: &Arrays) -> Ordering
        requires ours { Candidate (model_of net.now) self.now }
        requires theirs { Candidate (model_of net.now) other.now }
        ensures { let m = model_of net.now in Compares result (rows_of m (at self.now.places) (at self.now.transitions)) (rows_of m (at other.now.places) (at other.now.transitions)) }
    {
        // No plainer with `map` and `find`: these speak of a function, and what `compare` says of two rows is a relation.
        for position in 0..net.transitions as usize {
            let theirs = other.row(net, position);
            let ordering = self.row(net, position).compare(&theirs);
            if ordering.is_ne() {
                return ordering;
            }
        }
        Ordering::Equal
    }
}
