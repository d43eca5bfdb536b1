// Rows of transitions along orders of the places.
ghost use Rattle.std.specs.Prelude.{◌≡◌, ◌<◌, length, All};
ghost use Rattle.search.specs.Rows.{Compares, weights_along, Within};

use drawing::arrays::Arrays;
use std::cmp::Ordering;

// The row of a transition of a net along an order of the places: the numbers of that order are places (`within`), and the
// transition is one of the net (`named`). Cells and a ranking each make it of the order that they hold.
#[derive(Clone, Copy)]
pub(crate) struct RowAlong<'n> {
    pub(crate) net: &'n Arrays,
    pub(crate) places: &'n [u8; 64],
    pub(crate) transition: usize,
    pub ghost within: { Within places.now net.now.places 64 },
    pub ghost named: { transition < net.now.transitions },
}

// Compares the weights x along the order a with the weights y along the order b (of one length: a struct for weights and an order
// would be made for these calls alone). `Iterator::cmp` says the same, and took half as
// long again over the whole search: here most weights are equal, and are compared once.
fn compare_weights(x: &[u8; 64], a: &[u8], y: &[u8; 64], b: &[u8]) -> Ordering
    requires first { All (λ p. p < 64) a.now }
    requires second { All (λ p. p < 64) b.now }
    requires long { length b.now ≡ length a.now }
    ensures { Compares result (weights_along x.now a.now) (weights_along y.now b.now) }
{
    for (p, q) in a.iter().zip(b) {
        let v = x[*p as usize];
        let w = y[*q as usize];
        if v != w {
            return v.cmp(&w);
        }
    }
    Ordering::Equal
}

impl RowAlong<'_> {
    ghost use Rattle.search.specs.Along.{numbers_of};

    // Compares two rows of one net: the labels, then the causes, then the effects. No `Ord`, here and for rankings: `cmp` could not ask
    // that both are of one net.
    pub(crate) fn compare(&self, other: &RowAlong) -> Ordering
        requires { other.now.net.now ≡ self.now.net.now }
        ensures { Compares result (numbers_of self.now) (numbers_of other.now) }
    {
        let (net, ours, theirs) = (self.net, self.places, other.places);
        let n = net.places as usize;
        let (a, b) = (&ours[..n], &theirs[..n]);
        let (x, y) = (&net.rows[self.transition], &net.rows[other.transition]);
        // The labels apart: where an order of them was made first, the search took longer.
        if x.label != y.label {
            return x.label.cmp(&y.label);
        }
        let causes = compare_weights(&x.cause, a, &y.cause, b);
        causes.then_with(|| compare_weights(&x.effect, a, &y.effect, b))
    }
}
