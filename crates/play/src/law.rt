// The law of play, as the contract of a function.
ghost use Rattle.play.specs.Laws.{PlayLaw};

// What is proved of every table between two nets that sit on one net, after any calls.
#[tactic(auto, using(crate::proofs::Laws::play_law))]
pub fn play_stands()
    ensures { PlayLaw }
{}
