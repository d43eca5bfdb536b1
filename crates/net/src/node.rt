// The two kinds of node of a net: its places and its transitions.
ghost use Rattle.std.specs.Prelude.{◌≡◌, ℕ, ◌<◌, ◌≤◌, MatchOption};
ghost use Rattle.net.specs.Model.{Model, Lawful, Labelled};

use super::interface::Net;
use super::numbers::{Label, PlaceNo, TransitionNo};

/// A node of a net by its number: a place or a transition. What holds of both kinds is written once, over a node.
pub trait Node: Copy {
    // its number
    ghost number: { Self → ℕ };

    // how many nodes of this kind a net has, and their labels
    ghost count: { Model → ℕ };

    ghost label: { Model → ℕ → ℕ };

    // Two functions, and no `From` of each way: at a bound each would need a law that ties what it gives to the number.
    /// The node with a number.
    fn nth(n: u8) -> Self
        ensures { number result ≡ n };

    /// The number of the node.
    fn number(self) -> u8
        ensures { result ≡ number self };

    /// How many nodes of this kind a net has.
    fn count<N: Net>(net: &N) -> u8
        ensures { result ≡ count (N.model net.now) };

    /// The label of the node in a net.
    fn label<N: Net>(self, net: &N) -> Option<Label>
        ensures { MatchOption result (count (N.model net.now) ≤ number self) (λ l. (number self < count (N.model net.now)) × (l.0 ≡ label (N.model net.now) (number self))) };

    // in a lawful net all labels are within the limit, and 0 past the last node
    ghost labelled: { (m : Model) → Lawful m → Labelled (count m) (label m) };
}

impl Node for PlaceNo {
    ghost number = { λ place. place.0 };

    ghost count = { λ m. m.places };

    ghost label = { λ m. m.place_label };

    ghost labelled = { λ m lawful. lawful.place_labels };

    fn nth(n: u8) -> PlaceNo {
        PlaceNo(n)
    }

    fn number(self) -> u8 {
        self.0
    }

    fn count<N: Net>(net: &N) -> u8 {
        net.places()
    }

    fn label<N: Net>(self, net: &N) -> Option<Label> {
        net.place_label(self)
    }
}

impl Node for TransitionNo {
    ghost number = { λ transition. transition.0 };

    ghost count = { λ m. m.transitions };

    ghost label = { λ m. m.transition_label };

    ghost labelled = { λ m lawful. lawful.transition_labels };

    fn nth(n: u8) -> TransitionNo {
        TransitionNo(n)
    }

    fn number(self) -> u8 {
        self.0
    }

    fn count<N: Net>(net: &N) -> u8 {
        net.transitions()
    }

    fn label<N: Net>(self, net: &N) -> Option<Label> {
        net.transition_label(self)
    }
}

// A number and no Option: it is the label of the model, 0 past the last node, which copies, sheets and comparisons take as it is.
/// The label of a node as a number, 0 past the last node.
pub fn label_number<K: Node, N: Net>(net: &N, node: K) -> u16
    ensures { (result ≡ K.label (N.model net.now) (K.number node)) × (result ≤ 1023) }
{
    node.label(net).map_or(0, |label| label.0)
}
