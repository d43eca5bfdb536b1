// What the search has found so far.
ghost use Rattle.std.specs.Prelude.{◌≡◌, true};
ghost use Rattle.finite.specs.Lexicographic.{at_most};
ghost use Rattle.finite.specs.Injections.{Injects};
ghost use Rattle.drawing.specs.Arrays.{model_of};
ghost use Rattle.arrangement.specs.Arrangements.{at, Arrangement, Distinct, rows_along};
ghost use Rattle.search.specs.Descent.{Candidate};

use super::cells::Cells;
use super::ranking::Ranking;
use drawing::arrays::Arrays;

// The best ranking of a net so far, and the order of its transitions that was met last, from which the next one is sorted. The
// best is an arrangement, with the transitions sorted by their rows (`good`), and the last order has each transition once
// (`listed`). The net is in it, as it is in the cells, so that no method is given one; that the two have one net is asked. Arrays: nothing
// is allocated, and the counts are the net's.
#[derive(Clone, Copy)]
pub(crate) struct Found<'n> {
    pub(crate) net: &'n Arrays,
    pub(crate) best: Ranking,
    pub(crate) last: [u8; 128],
    pub ghost good: { Candidate (model_of net.now) best },
    pub ghost listed: { Injects (at last) net.now.transitions net.now.transitions },
}

impl Found<'_> {
    // Takes the order of cells, which is an arrangement, for the best where it is lower.
    pub(crate) fn settle(&mut self, cells: &Cells)
        requires here { cells.now.net.now ≡ self.old.net.now }
        requires distinct { Distinct (model_of self.old.net.now) }
        requires arranged { Arrangement (model_of self.old.net.now) (at cells.now.places) }
        ensures here { self.new.net.now ≡ self.old.net.now }
        ensures better { let m = model_of self.old.net.now in at_most (rows_along m (at self.new.best.places)) (rows_along m (at self.old.best.places)) ≡ true }
        ensures met { let m = model_of self.old.net.now in at_most (rows_along m (at self.new.best.places)) (rows_along m (at cells.now.places)) ≡ true }
    {
        // Sorted in a local: the search took more than half as long again where `self.last` was sorted in place.
        let mut last = self.last;
        cells.sort_rows(&mut last);
        self.last = last;
        let met = Ranking {
            places: cells.places,
            transitions: last,
        };
        if met.compare(&self.best, self.net).is_lt() {
            self.best = met;
        }
    }
}
