// The two bags of a transition, and the size of a bag.
ghost use Rattle.std.specs.Prelude.{◌≡◌, sum};
ghost use Rattle.net.specs.Bags.{weights, other_bag};

use super::interface::Net;
use super::numbers::{PlaceNo, TransitionNo};

/// One of the two bags of a transition: what it takes, or what it puts.
#[derive(Clone, Copy, PartialEq, Eq, Debug)]
pub enum Bag {
    Cause,
    Effect,
}

impl Bag {
    /// The other of the two bags.
    pub fn other(self) -> Bag
        ensures { result ≡ other_bag self }
    {
        match self {
            Bag::Cause => Bag::Effect,
            Bag::Effect => Bag::Cause,
        }
    }
}

/// The weight of a transition's bag at a place.
pub fn weight<N: Net>(net: &N, bag: Bag, transition: TransitionNo, place: PlaceNo) -> u8
    ensures { result ≡ weights bag (N.model net.now) transition.0 place.0 }
{
    match bag {
        Bag::Cause => net.cause(transition, place),
        Bag::Effect => net.effect(transition, place),
    }
}

/// The size of a bag: the sum of its weights.
pub fn bag_size(row: &[u8; 64]) -> u16
    ensures { result ≡ sum row.now }
{
    row.iter().map(|weight| u16::from(*weight)).sum()
}
