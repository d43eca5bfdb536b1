// The search through the cells: the least row comes next, and the places are divided by it.
ghost use Rattle.std.specs.Prelude.{◌≡◌, ℕ, ◌+◌, ◌<◌, true, nat_lt};
ghost use Rattle.finite.specs.Lexicographic.{lower, at_most};
ghost use Rattle.finite.specs.Injections.{Injects};
ghost use Rattle.drawing.specs.Arrays.{model_of};
ghost use Rattle.arrangement.specs.Arrangements.{at, Arrangement, Distinct, row, rows_along};
ghost use Rattle.search.specs.Along.{numbers_of};
ghost use Rattle.search.specs.Rows.{Compares};
ghost use Rattle.search.specs.Cells.{OrderedBy, LeastRow};
ghost use Rattle.search.specs.Descent.{Fixed, Chosen};

use super::cells::Cells;
use super::found::Found;
use super::rows::RowAlong;
use std::cmp::Ordering;

// A branch of the search: cells, and an order of the transitions, of which the first `fixed` have the first positions and the
// same rows along each order of the cells (`rows`). The order has each transition once (`all`). Each order of the cells is an
// arrangement (`arranged`), and no two transitions agree in label, cause and effect (`distinct`). The order is an array and no
// struct with that fact, as the last order is: one is swapped and the other sorted, and each use would open the struct again.
#[derive(Clone, Copy)]
pub(crate) struct Branch<'n> {
    pub(crate) cells: Cells<'n>,
    pub(crate) order: [u8; 128],
    pub(crate) fixed: usize,
    pub ghost distinct: { Distinct (model_of cells.net.now) },
    pub ghost arranged: { (b : ℕ → ℕ) → OrderedBy cells.net.now.places (at cells.labels) b → Arrangement (model_of cells.net.now) b },
    pub ghost all: { Injects (at order) cells.net.now.transitions cells.net.now.transitions },
    pub ghost rows: { Fixed (model_of cells.net.now) (at cells.labels) fixed (at order) (λ j. row (model_of cells.net.now) (at cells.places) (at order j)) },
}

// The index of an entry of the order of the transitions, and the cells divided by the row of that transition.
#[derive(Clone, Copy)]
struct Choice<'n> {
    index: usize,
    cells: Cells<'n>,
}

// `choose`, `divided_at` and `below` are kept out of line: what they hold would else stand in the frame of each branch that the search
// is in.
impl<'n> Branch<'n> {
    // The transition with the least row, from the first that is not fixed on, over all orders of the cells.
    #[inline(never)]
    fn choose(&self) -> Choice<'n>
        requires { self.now.fixed < self.now.cells.net.now.transitions }
        ensures here { result.cells.net.now ≡ self.now.cells.net.now }
        ensures chosen { Chosen (model_of self.now.cells.net.now) (at self.now.cells.labels) self.now.fixed (at self.now.order) result.index (at result.cells.places) }
    {
        let mut index = self.fixed;
        let mut cells = self.cells.least_row(self.order[index] as usize);
        // By index: the index of the least is the answer.
        for k in self.fixed + 1..self.cells.net.transitions as usize {
            let least = cells.row(self.order[index] as usize);
            if self.above(k, &least) {
                continue;
            }
            let (ordering, next) = self.divided_at(k, &least);
            if ordering.is_lt() {
                index = k;
                cells = next;
            }
        }
        Choice { index, cells }
    }

    // Whether the label of the transition at k alone is above that of the least row, so that its row is above in each order. A test
    // of its own, before anything is divided: most transitions of a large net fall here.
    fn above(&self, k: usize, least: &RowAlong) -> bool
        requires within { k < self.now.cells.net.now.transitions }
        requires here { least.now.net.now ≡ self.now.cells.net.now }
        ensures { let m = model_of self.now.cells.net.now in result ≡ nat_lt (m.transition_label least.now.transition) (m.transition_label (at self.now.order k)) }
    {
        let rows = &self.cells.net.rows;
        rows[least.transition].label < rows[self.order[k] as usize].label
    }

    // The cells divided by the row of the transition at k, and before them how that row compares with the least one.
    #[inline(never)]
    fn divided_at(&self, k: usize, least: &RowAlong) -> (Ordering, Cells<'n>)
        requires within { k < self.now.cells.net.now.transitions }
        requires here { least.now.net.now ≡ self.now.cells.net.now }
        ensures here { result.1.net.now ≡ self.now.cells.net.now }
        ensures least { LeastRow (model_of self.now.cells.net.now) (at self.now.order k) (at self.now.cells.labels) (at result.1.labels) (at result.1.places) }
        ensures compared { Compares result.0 (row (model_of self.now.cells.net.now) (at result.1.places) (at self.now.order k)) (numbers_of least.now) }
    {
        let transition = self.order[k] as usize;
        let cells = self.cells.least_row(transition);
        let ordering = cells.row(transition).compare(least);
        (ordering, cells)
    }

    // Whether the best has the fixed rows, and then a row below the least one here.
    fn beaten(&self, least: &RowAlong, found: &Found) -> bool
        requires few { self.now.fixed < self.now.cells.net.now.transitions }
        requires here { least.now.net.now ≡ self.now.cells.net.now }
        requires there { found.now.net.now ≡ self.now.cells.net.now }
        ensures same { let m = model_of self.now.cells.net.now in result ≡ true → (k : ℕ) → k < self.now.fixed → row m (at found.now.best.places) (at found.now.best.transitions k) ≡ row m (at self.now.cells.places) (at self.now.order k) }
        ensures above { result ≡ true → lower (row (model_of self.now.cells.net.now) (at found.now.best.places) (at found.now.best.transitions self.now.fixed)) (numbers_of least.now) ≡ true }
    {
        (0..self.fixed).all(|k| {
            let ours = self.cells.row(self.order[k] as usize);
            found.best.row(found.net, k).compare(&ours).is_eq()
        }) && found.best.row(found.net, self.fixed).compare(least).is_lt()
    }

    // The branch below this one with the transition at k fixed next, whose row is least, and the cells divided by that row.
    #[inline(never)]
    fn below(&self, k: usize, cells: Cells<'n>) -> Branch<'n>
        requires here { cells.net.now ≡ self.now.cells.net.now }
        requires least { LeastRow (model_of self.now.cells.net.now) (at self.now.order k) (at self.now.cells.labels) (at cells.labels) (at cells.places) }
        requires chosen { Chosen (model_of self.now.cells.net.now) (at self.now.cells.labels) self.now.fixed (at self.now.order) k (at cells.places) }
        ensures cells { result.cells ≡ cells.entry }
        ensures fixed { result.fixed ≡ self.now.fixed + 1 }
    {
        let mut order = self.order;
        order.swap(self.fixed, k);
        Branch {
            cells,
            order,
            fixed: self.fixed + 1,
        }
    }

    // Goes through the orders of the cells and takes the least for the best.
    pub(crate) fn descend(&self, found: &mut Found)
        requires { found.old.net.now ≡ self.now.cells.net.now }
        ensures here { found.new.net.now ≡ found.old.net.now }
        ensures better { let m = model_of self.now.cells.net.now in at_most (rows_along m (at found.new.best.places)) (rows_along m (at found.old.best.places)) ≡ true }
        ensures least { let m = model_of self.now.cells.net.now in (b : ℕ → ℕ) → OrderedBy m.places (at self.now.cells.labels) b → at_most (rows_along m (at found.new.best.places)) (rows_along m b) ≡ true }
    {
        let transitions = self.cells.net.transitions as usize;
        if self.fixed >= transitions || self.cells.all_apart() {
            found.settle(&self.cells);
            return;
        }
        let choice = self.choose();
        let least = choice.cells.row(self.order[choice.index] as usize);
        if self.beaten(&least, found) {
            return;
        }
        // By index: the branch below exchanges the transition at k.
        for k in self.fixed..transitions {
            if self.above(k, &least) {
                continue;
            }
            let (ordering, next) = self.divided_at(k, &least);
            if ordering.is_eq() {
                self.below(k, next).descend(found);
            }
        }
    }
}
