// Forming the groups of a likeness.
ghost use Rattle.std.specs.Prelude.{◌≡◌, ◌<◌, ◌≤◌};
ghost use Rattle.bisimulation.specs.Leaders.{lowest};
ghost use Rattle.fold.specs.Divides.{Divided};

use super::Division;
use crate::likeness::Likeness;
use net::node::Node;
use std::marker::PhantomData;

// The number of the lowest node that is alike to a node.
fn lowest_alike<K: Node, L: Likeness<K>>(by: &L, node: K) -> u8
    requires { K.number node < L.size by.now }
    ensures { result ≡ lowest (L.like by.now) (L.size by.now) (K.number node) }
{
    let p = node.number();
    // A loop: with `find` the closure would need clauses, since `alike` asks something and is called after `K::nth`; no plainer.
    for q in 0..p {
        if by.alike(K::nth(q), node) {
            return q;
        }
    }
    p
}

impl<K: Node, const MOST: usize> Division<K, MOST> {
    /// The nodes in the groups of a likeness.
    pub(crate) fn by<L: Likeness<K>>(by: &L) -> Division<K, MOST>
        requires { L.size by.now ≤ MOST }
        ensures { Divided (L.size by.now) (L.like by.now) result }
    {
        let members = by.size();
        let mut groups = 0;
        let mut leaders = [0; MOST];
        for p in 0..members {
            let leader = lowest_alike(by, K::nth(p));
            leaders[usize::from(p)] = leader;
            // Counted as the list is filled: a chain's `count` would be no plainer, it reads the list a second time for it.
            if leader == p {
                groups += 1;
            }
        }
        Division {
            members,
            groups,
            leaders,
            kind: PhantomData,
        }
    }
}
