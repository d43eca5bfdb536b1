// The empty division, and what a division answers.
ghost use Rattle.std.specs.Prelude.{◌≡◌, ◌<◌, ◌≤◌, length, MatchOption, slice_index_or};
ghost use Rattle.fold.specs.Together.{together};

use super::Division;
use net::node::Node;
use std::marker::PhantomData;

impl<K: Node, const MOST: usize> Division<K, MOST> {
    /// A division of no nodes.
    pub fn new() -> Division<K, MOST>
        ensures divides { result.members ≡ 0 }
        ensures groups { result.groups ≡ 0 }
    {
        Division {
            members: 0,
            groups: 0,
            leaders: [0; MOST],
            kind: PhantomData,
        }
    }

    /// The leader of a node's group, none past the last node.
    pub fn leader_of(&self, node: K) -> Option<K>
        ensures { MatchOption result (self.now.members ≤ K.number node) (λ l. (K.number node < self.now.members) × (K.number l ≡ slice_index_or self.now.leaders (K.number node) 0)) }
    {
        let leaders = &self.leaders[..usize::from(self.members)];
        let leader = leaders.get(usize::from(node.number()));
        leader.map(|l| K::nth(*l))
    }

    /// The leader of each node's group, one after the other.
    pub fn leaders(&self) -> &[u8; MOST]
        ensures same { result.now ≡ self.now.leaders }
        ensures long { length result.now ≡ MOST }
    {
        &self.leaders
    }

    // The number of the leader of a node's group. The bound stands where it is needed: a node may be past the last (`leader_of` has none
    // there), so its type cannot hold it.
    pub(crate) fn leader(&self, node: K) -> u8
        requires { K.number node < MOST }
        ensures { (result ≡ slice_index_or self.now.leaders (K.number node) 0) × (result ≤ K.number node) }
    {
        self.leaders[usize::from(node.number())]
    }

    // Whether two nodes are together.
    pub(crate) fn same(&self, a: K, b: K) -> bool
        requires { (K.number a < MOST) × (K.number b < MOST) }
        ensures { result ≡ together self.now.leaders (K.number a) (K.number b) }
    {
        self.leader(a) == self.leader(b)
    }
}
