// The leaders of the groups of a division, in order.
ghost use Rattle.std.specs.Prelude.{◌≡◌, ◌<◌, ◌≤◌, MatchOption, slice_index_or};
ghost use Rattle.arrayvec.specs.ArrayVec.{array_vec_len};

use super::division::Division;
use arrayvec::ArrayVec;
use net::node::Node;
use std::marker::PhantomData;

/// Nodes of one kind in a list, at most so many: the leaders of groups, by the number of the group.
#[derive(Drop)]
pub struct Leaders<K, const MOST: usize> {
    pub(crate) listed: ArrayVec<u8, MOST>,
    pub(crate) kind: PhantomData<K>,
    ghost few: { array_vec_len listed < 256 },
}

impl<K: Node, const MOST: usize> Leaders<K, MOST> {
    ghost use Rattle.fold.specs.Listing.{LeadersOf};

    /// The leaders of the groups of a division, in order.
    pub fn of(division: &Division<K, MOST>) -> Leaders<K, MOST>
        ensures { LeadersOf division.now result }
    {
        let mut listed = ArrayVec::new();
        for p in 0..division.members {
            if division.leader(K::nth(p)) == p {
                listed.push(p);
            }
        }
        Leaders {
            listed,
            kind: PhantomData,
        }
    }

    /// How many groups.
    pub(crate) fn count(&self) -> u8
        ensures { result ≡ array_vec_len self.now.listed }
    {
        self.listed.len() as u8
    }

    /// The leader of a group, the group numbered as a node of the folded net; none past the last group.
    pub fn get(&self, group: K) -> Option<K>
        ensures { MatchOption result (array_vec_len self.now.listed ≤ K.number group) (λ l. (K.number group < array_vec_len self.now.listed) × (K.number l ≡ slice_index_or self.now.listed.items (K.number group) 0)) }
    {
        // As `Division::leader_of`: one function for both lists would need a third contract, as long as either.
        let leaders = self.listed.as_slice();
        let leader = leaders.get(usize::from(group.number()));
        leader.map(|l| K::nth(*l))
    }
}
