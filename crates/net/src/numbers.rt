// Numbers and labels, each a type of its own, so that none can be handed over for another. Places and transitions keep two
// types: one generic over a marker would need a second name for each kind, and what holds of both is in `Node` already.

/// The number of a place, from 0.
#[derive(Clone, Copy, PartialEq, Eq, Debug)]
pub struct PlaceNo(pub u8);

/// The number of a transition, from 0.
#[derive(Clone, Copy, PartialEq, Eq, Debug)]
pub struct TransitionNo(pub u8);

/// The label of a place or of a transition. The two have separate lists of labels; a net's labels are at most 1,023.
#[derive(Clone, Copy, PartialEq, Eq, Debug)]
pub struct Label(pub u16);

/// A seat: the position of the group of a place or transition in its net's normal form, from 0.
#[derive(Clone, Copy, PartialEq, Eq, Debug)]
pub struct Seat(pub u8);
