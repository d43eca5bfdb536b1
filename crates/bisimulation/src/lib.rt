// Structural bisimulation of nets: the rounds of folding and what they come to.
#![tactic(auto)]

ghost use Rattle.bisimulation.specs.Laws.{RoundsLaw};

// The law of rounds, as the contract of a function: what is proved of the rounds of every net, of their groups and of its folded net.
pub fn rounds_stand()
    ensures { RoundsLaw }
{}
