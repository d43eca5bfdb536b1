// A net and the groups that its nodes are in.
ghost use Rattle.std.specs.Prelude.{◌≡◌};
ghost use Rattle.fold.specs.Layer.{fits};

use super::grouping::Grouping;
use net::interface::Net;

/// A net with a grouping, which the net's places and transitions are read through.
#[derive(Drop)]
pub struct GroupedNet<'n, 'g, N: Net> {
    pub(crate) net: &'n N,
    pub(crate) groups: &'g Grouping,
}

impl<'n, 'g, N: Net> GroupedNet<'n, 'g, N> {
    // Whether the grouping divides as many places and as many transitions as the net has.
    pub(crate) fn fits(&self) -> bool
        ensures { result ≡ fits (N.model self.now.net.now) self.now.groups.now }
    {
        self.net.places() == self.groups.places.members
            && self.net.transitions() == self.groups.transitions.members
    }
}
