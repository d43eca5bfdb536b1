// A net read through a grouping.
ghost use Rattle.fold.specs.Listing.{LeadersOf};

use super::grouped::GroupedNet;
use super::leaders::Leaders;
use net::interface::Net;
use net::numbers::{PlaceNo, TransitionNo};

pub mod answers;
pub mod over;

/// A net whose places and transitions are the groups of the net below, each with its leader's label, in the order of
/// their leaders. Where the grouping divides another number of places or of transitions than that net has, it reads as
/// that net.
#[derive(Drop)]
pub struct Folded<'n, 'g, N: Net> {
    below: GroupedNet<'n, 'g, N>,
    places: Leaders<PlaceNo, 64>,
    transitions: Leaders<TransitionNo, 128>,
    ghost place_leaders: { LeadersOf below.groups.now.places places },
    ghost transition_leaders: { LeadersOf below.groups.now.transitions transitions },
}
