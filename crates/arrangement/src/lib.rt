// Arrangements of nets, end sheets and seats: definitions and their law.
#![tactic(auto)]

ghost use Rattle.arrangement.specs.Laws.{ArrangementLaw};

// The law of arrangements, as the contract of a function: what is proved of the arrangements of every net, of end sheets and of seats.
pub fn arrangements_stand()
    ensures { ArrangementLaw }
{}
