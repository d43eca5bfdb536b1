// The words of the table: its sides, the sorts of lead, and what is recorded of a lead.
ghost use Rattle.std.specs.Prelude.{◌≡◌};
ghost use Rattle.play.specs.declared.kinds.Sort.TheVariants.{Put, Take, Fire};
ghost use Rattle.play.specs.Kinds.{across, same_lead};

use net::numbers::{PlaceNo, Seat, TransitionNo};

/// One of the two sides of a table.
#[derive(Clone, Copy, PartialEq, Eq, Debug)]
pub enum Side {
    Left,
    Right,
}

impl Side {
    /// The side across the table.
    pub fn other(self) -> Side
        ensures { result ≡ across self }
    {
        match self {
            Side::Left => Side::Right,
            Side::Right => Side::Left,
        }
    }
}

/// The sorts of lead: a token is put on a place or taken from it, or a transition is fired.
#[derive(Clone, Copy, PartialEq, Eq, Debug)]
pub enum Sort {
    Put,
    Take,
    Fire,
}

/// A move on one side: the sort of lead, and the number of the place or transition that it names. A value of it is called a step,
/// since `move` is a keyword of the language.
#[derive(Clone, Copy, PartialEq, Eq, Debug)]
pub struct Move {
    pub sort: Sort,
    pub number: u8,
}

// Three names, and no function of a sort and a number: each takes a number of its own kind. A move has a sort and a number, and is no
// enum of the kinds: an answer gives a number alone, and takes the sort of its lead.
impl Move {
    /// A token is put on a place.
    pub fn put(place: PlaceNo) -> Move
        ensures { result ≡ record { sort = Put; number = place.0 } }
    {
        Move {
            sort: Sort::Put,
            number: place.0,
        }
    }

    /// A token is taken from a place.
    pub fn take(place: PlaceNo) -> Move
        ensures { result ≡ record { sort = Take; number = place.0 } }
    {
        Move {
            sort: Sort::Take,
            number: place.0,
        }
    }

    /// A transition is fired.
    pub fn fire(transition: TransitionNo) -> Move
        ensures { result ≡ record { sort = Fire; number = transition.0 } }
    {
        Move {
            sort: Sort::Fire,
            number: transition.0,
        }
    }
}

/// What is recorded of an accepted lead: the side that led, the sort of lead, the number of the place or transition led with, and
/// its seat.
// The move stands as its two fields: the four are the record that users list and compare.
#[derive(Clone, Copy, PartialEq, Eq, Debug)]
pub struct Lead {
    pub side: Side,
    pub sort: Sort,
    pub number: u8,
    pub seat: Seat,
}

impl Lead {
    /// The move that the lead made.
    pub fn step(self) -> Move
        ensures { result ≡ record { sort = self.sort; number = self.number } }
    {
        Move {
            sort: self.sort,
            number: self.number,
        }
    }

    /// Whether two records agree in all.
    // A call that users have had from the start; `==` says the same.
    pub fn agrees(self, other: Lead) -> bool
        ensures { result ≡ same_lead self other }
    {
        self == other
    }
}
