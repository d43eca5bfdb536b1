// Laying a folded net over a net.
ghost use Rattle.std.specs.Prelude.{◌≡◌};
ghost use Rattle.bisimulation.specs.Rounds.{final};
ghost use Rattle.bisimulation.specs.Bisimulation.{Alike};
ghost use Rattle.fold.specs.Divides.{Divides};
ghost use Rattle.fold.specs.Layer.{folded_by};

use super::Folded;
use crate::grouped::GroupedNet;
use crate::grouping::Grouping;
use crate::leaders::Leaders;
use net::interface::Net;

impl<'n, 'g, N: Net> Folded<'n, 'g, N> {
    /// The net folded by the grouping. Folded by its own groups at rest, it is alike to the net below.
    pub fn over(net: &'n N, groups: &'g Grouping) -> Folded<'n, 'g, N>
        ensures below { (result.below.net.now ≡ net.now) × (result.below.groups.now ≡ groups.now) }
        ensures alike { Divides (N.model net.now).places (N.model net.now).transitions (final (N.model net.now)) groups.now → Alike (folded_by (N.model net.now) groups.now) (N.model net.now) }
    {
        Folded {
            below: GroupedNet { net, groups },
            places: Leaders::of(&groups.places),
            transitions: Leaders::of(&groups.transitions),
        }
    }
}
