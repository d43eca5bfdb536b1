// Folding: the rounds from the labels on, until one parts nothing.
ghost use Rattle.std.specs.Prelude.{◌≡◌};
ghost use Rattle.bisimulation.specs.Rounds.{rest, final};
ghost use Rattle.bisimulation.specs.Folding.{folded};
ghost use Rattle.fold.specs.Divides.{Divides};

use super::grouping::Grouping;
use super::rounds::{label_round, next_round};
use net::interface::Net;

/// Folds a net: the grouping becomes that of the net's places and transitions at rest.
/// Gives the numbers of groups of places and of transitions, and how many rounds parted something.
// Users asked for the three numbers as a tuple.
pub fn fold<N: Net>(net: &N, groups: &mut Grouping) -> (u8, u8, u8)
    ensures places { result.0 ≡ (folded (N.model net.now)).places }
    ensures transitions { result.1 ≡ (folded (N.model net.now)).transitions }
    ensures rounds { result.2 ≡ rest (N.model net.now) }
    ensures groups { Divides (N.model net.now).places (N.model net.now).transitions (final (N.model net.now)) groups.new }
{
    *groups = label_round(net);
    let mut rounds = 0;
    // A `loop`: a `for` over the rounds would need an end that is never reached, and an answer past it.
    loop {
        let next = next_round(net, groups);
        if next.as_many(groups) {
            return (groups.places.groups, groups.transitions.groups, rounds);
        }
        *groups = next;
        rounds += 1;
    }
}
