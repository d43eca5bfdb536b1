// The seats of a net's places and transitions.
ghost use Rattle.std.specs.Prelude.{◌≡◌, ℕ, ◌≤◌};
ghost use Rattle.arrangement.specs.Arrangements.{at};
ghost use Rattle.normal.specs.Seatings.{SeatsAlong};

use super::groups::{group_number, position_of};
use fold::division::Division;
use net::interface::Net;
use net::node::Node;
use net::numbers::{PlaceNo, Seat, TransitionNo};
use std::marker::PhantomData;

/// A seat for each node of one kind, of which there are at most `MOST`: the position of its group in the end sheet.
#[derive(Clone, Copy)]
pub struct SeatsOf<K: Node, const MOST: usize> {
    pub seats: [u8; MOST],
    kind: PhantomData<K>,
}

/// The seats that an array holds, each at the number of its node.
impl<K: Node, const MOST: usize> From<[u8; MOST]> for SeatsOf<K, MOST> {
    ghost from_gives = { λ array taken. taken.seats ≡ array };

    fn from(seats: [u8; MOST]) -> SeatsOf<K, MOST> {
        SeatsOf {
            seats,
            kind: PhantomData,
        }
    }
}

impl<K: Node, const MOST: usize> SeatsOf<K, MOST> {
    /// All seats 0.
    pub fn new() -> SeatsOf<K, MOST>
        ensures { (n : ℕ) → at result.seats n ≡ 0 }
    {
        SeatsOf::from([0; MOST])
    }

    // 0 past the last entry: before a reduction all seats are 0, and callers ask with numbers of the net.
    /// The seat of a node.
    pub fn of(&self, node: K) -> Seat
        ensures { result.0 ≡ at self.now.seats (K.number node) }
    {
        let seat = self.seats.get(usize::from(node.number()));
        Seat(seat.map_or(0, |seat| *seat))
    }

    // The seats of a net's nodes, from their groups and the order of so many groups: each has the position of its group. The order
    // comes whole with its count, as what the ranking says speaks of it; by fronts each call would need a lemma on fronts.
    pub(crate) fn along<N: Net>(
        net: &N,
        groups: &Division<K, MOST>,
        order: &[u8; MOST],
        count: u8,
    ) -> SeatsOf<K, MOST>
        requires divided { groups.now.members ≡ K.count (N.model net.now) }
        requires few { count ≤ MOST }
        ensures { SeatsAlong (K.count (N.model net.now)) groups.now.leaders count order.now result.seats }
    {
        let leaders = groups.leaders();
        let standing = &order[..usize::from(count)];
        let mut seats = [0; MOST];
        // Over numbers: p is asked of the leaders and named in the seats, and a group's number is counted in the whole of the leaders.
        for p in 0..K::count(net) {
            let group = group_number(leaders, leaders[usize::from(p)]);
            // The count for a group that stands nowhere, as the inverse of the order has it; a ranking has each group once.
            seats[usize::from(p)] = position_of(standing, group).unwrap_or(count);
        }
        SeatsOf::from(seats)
    }
}

/// The seats of a net's places and of its transitions.
#[derive(Clone, Copy)]
pub struct Seats {
    pub places: SeatsOf<PlaceNo, 64>,
    pub transitions: SeatsOf<TransitionNo, 128>,
}

impl Seats {
    /// All seats 0, until a reduction fills them.
    pub fn new() -> Seats
        ensures { (p : ℕ) → (at result.places.seats p ≡ 0) × (at result.transitions.seats p ≡ 0) }
    {
        Seats {
            places: SeatsOf::new(),
            transitions: SeatsOf::new(),
        }
    }
}
