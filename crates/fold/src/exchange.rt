// The exchange of one place for another in the causes of a net's transitions.
ghost use Rattle.std.specs.Prelude.{◌≡◌, ◌≤◌};
ghost use Rattle.bisimulation.specs.Rounds.{unit, replaces, exchanges};
ghost use Rattle.fold.specs.Grouped.{groups_of};

use super::grouped::GroupedNet;
use net::interface::Net;
use net::numbers::{PlaceNo, TransitionNo};

/// One place replaced by another.
#[derive(Clone, Copy)]
pub struct Exchange {
    pub from: PlaceNo,
    pub to: PlaceNo,
}

// How often the bag of one place holds another: 1 or 0.
#[tactic(auto, unfolding(bisimulation::specs::Rounds::unit))]
fn unit(held: PlaceNo, place: PlaceNo) -> u16
    ensures { (result ≡ unit held.0 place.0) × (result ≤ 1) }
{
    u16::from(held == place)
}

impl Exchange {
    // Whether u's cause is t's with one `from` replaced by one `to`.
    fn replaces<N: Net>(self, net: &N, t: TransitionNo, u: TransitionNo) -> bool
        ensures { result ≡ replaces (N.model net.now) self.from.0 self.to.0 t.0 u.0 }
    {
        (0..net.places()).all(|x| {
            let place = PlaceNo(x);
            let got = u16::from(net.cause(u, place)) + unit(self.from, place);
            let wanted = u16::from(net.cause(t, place)) + unit(self.to, place);
            got == wanted
        })
    }

    /// Whether each transition whose cause has `from` is together with one whose cause has one `to` in place of one `from`.
    /// The first transition with no such partner ends the search.
    // Users asked for the search in this form: two loops, the outer one with a label.
    #[tactic(auto, using(crate::proofs::Loops::below_steps), unfolding(bisimulation::specs::Rounds::exchanges))]
    pub fn holds<N: Net>(self, among: &GroupedNet<N>) -> bool
        ensures { result ≡ exchanges (N.model among.now.net.now) (groups_of among.now.groups.now) self.from.0 self.to.0 }
    {
        let net = among.net;
        let together = &among.groups.transitions;
        'transitions: for t in 0..net.transitions() {
            if net.cause(TransitionNo(t), self.from) == 0 {
                continue;
            }
            for u in 0..net.transitions() {
                if together.same(TransitionNo(t), TransitionNo(u))
                    && self.replaces(net, TransitionNo(t), TransitionNo(u))
                {
                    continue 'transitions;
                }
            }
            return false;
        }
        true
    }
}
