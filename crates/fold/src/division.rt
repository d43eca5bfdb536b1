// The nodes of one kind in groups.
ghost use Rattle.std.specs.Prelude.{ℕ, ◌≤◌, slice_index};
ghost use Rattle.fold.specs.Together.{LowestLead};

use std::marker::PhantomData;

pub mod answers;
mod forming;

/// The nodes of one kind, at most so many, in groups. A group's leader is its lowest member; together are those with
/// one leader.
#[derive(Drop)]
pub struct Division<K, const MOST: usize> {
    // The list is as long as MOST and not as `members`: where a grouping does not fit its net, the net's nodes past
    // `members` are read too, and nothing is allocated.
    pub(crate) members: u8,
    pub(crate) groups: u8,
    pub(crate) leaders: [u8; MOST],
    pub(crate) kind: PhantomData<K>,
    ghost few: { members ≤ MOST },
    // each member's leader is the lowest that is together with it
    ghost led: { LowestLead members leaders },
    // no leader is above its member, past the last member too
    ghost low: { (i : ℕ) → slice_index leaders i ≤ i },
}
