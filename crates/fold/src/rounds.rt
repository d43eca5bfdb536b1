// The rounds of folding: the groups by labels, and then round by round what is kept together.
ghost use Rattle.bisimulation.specs.Rounds.{label_groups, refine};
ghost use Rattle.fold.specs.Grouped.{groups_of};
ghost use Rattle.fold.specs.Divides.{Divides};

use super::grouped::GroupedNet;
use super::grouping::Grouping;
use super::labels::ByLabel;
use net::interface::Net;

/// The groups by labels.
pub fn label_round<N: Net>(net: &N) -> Grouping
    ensures { Divides (N.model net.now).places (N.model net.now).transitions (label_groups (N.model net.now)) result }
{
    Grouping::by(&ByLabel { net })
}

/// The groups of the round after a grouping.
pub fn next_round<N: Net>(net: &N, groups: &Grouping) -> Grouping
    ensures { Divides (N.model net.now).places (N.model net.now).transitions (refine (N.model net.now) (groups_of groups.now)) result }
{
    Grouping::by(&GroupedNet { net, groups })
}
