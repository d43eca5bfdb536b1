// A drawing as a copy of any net. The loops stop at the net's counts: `from_fn`, which makes an array whole, would ask the net
// about all the places and transitions that there can be.
ghost use Rattle.std.specs.Prelude.{◌≡◌, ℕ, slice_index};
ghost use Rattle.net.specs.Model.{empty};
ghost use Rattle.net.specs.Bags.{weights};
ghost use Rattle.drawing.specs.Arrays.{Shows, row_or_blank};
ghost use Rattle.drawing.specs.Drawn.{drawn};

use crate::Drawing;
use crate::arrays::Row;
use net::bag::{Bag, weight};
use net::interface::Net;
use net::node::label_number;
use net::numbers::{PlaceNo, TransitionNo};

// The labels of the places, 0 past the last.
fn place_labels<N: Net>(net: &N) -> [u16; 64]
    ensures { (q : ℕ) → slice_index result q ≡ (N.model net.now).place_label q }
{
    let mut labels = [0; 64];
    for p in 0..net.places() {
        labels[usize::from(p)] = label_number(net, PlaceNo(p));
    }
    labels
}

// The weights of one bag of a transition, 0 past the last place.
fn weights_of<N: Net>(net: &N, bag: Bag, transition: TransitionNo) -> [u8; 64]
    ensures { (q : ℕ) → slice_index result q ≡ weights bag (N.model net.now) transition.0 q }
{
    let mut weights = [0; 64];
    for p in 0..net.places() {
        weights[usize::from(p)] = weight(net, bag, transition, PlaceNo(p));
    }
    weights
}

// A transition; past the last its label and its weights are 0.
fn row_of<N: Net>(net: &N, transition: TransitionNo) -> Row
    ensures { Shows (N.model net.now) transition.0 result }
{
    Row {
        label: label_number(net, transition),
        cause: weights_of(net, Bag::Cause, transition),
        effect: weights_of(net, Bag::Effect, transition),
    }
}

// Writes a row for each transition over blank rows. It writes them where they stay: if it gave rows back, these 16 KB would be
// copied again and again on their way into the drawing.
fn write_rows<N: Net>(net: &N, rows: &mut [Row; 128])
    requires { (t : ℕ) → Shows empty t (row_or_blank rows.old t) }
    ensures { (t : ℕ) → Shows (N.model net.now) t (row_or_blank rows.new t) }
{
    for t in 0..net.transitions() {
        rows[usize::from(t)] = row_of(net, TransitionNo(t));
    }
}

impl Drawing {
    /// A drawing of the net that answers.
    pub fn copy_of<N: Net>(net: &N) -> Drawing
        ensures { drawn result ≡ N.model net.now }
    {
        let mut arrays = Drawing::new().arrays;
        arrays.places = net.places();
        arrays.transitions = net.transitions();
        arrays.place_labels = place_labels(net);
        write_rows(net, &mut arrays.rows);
        Drawing { arrays }
    }
}
