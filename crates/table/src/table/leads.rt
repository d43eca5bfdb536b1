// A new table, and the leads: put, take and fire, the calls by which users name the three sorts of move.
ghost use Rattle.std.specs.Prelude.{◌≡◌};
ghost use Rattle.play.specs.declared.kinds.Sort.TheVariants.{Put, Take, Fire};
ghost use Rattle.play.specs.States.{closed};
ghost use Rattle.play.specs.Calls.{lead_says, led};
ghost use Rattle.table.specs.Tables.{state_of, handed, AsBefore};

use super::Table;
use crate::due::Due;
use net::numbers::{PlaceNo, TransitionNo};
use play::kinds::{Move, Side};
use play::refusals::LeadRefusal;

impl Table {
    /// A closed table.
    pub fn new() -> Table
        ensures { state_of result ≡ closed }
    {
        Table { game: None }
    }

    /// Puts a token on a place of a side.
    pub fn put(&mut self, side: Side, place: PlaceNo) -> Result<Due, LeadRefusal>
        ensures says { result ≡ handed (lead_says (state_of self.old) side Put place.0) }
        ensures after { state_of self.new ≡ led (state_of self.old) side Put place.0 }
        ensures refused { AsBefore result self.old self.new }
    {
        self.lead(side, Move::put(place))
    }

    /// Takes a token from a place of a side.
    pub fn take(&mut self, side: Side, place: PlaceNo) -> Result<Due, LeadRefusal>
        ensures says { result ≡ handed (lead_says (state_of self.old) side Take place.0) }
        ensures after { state_of self.new ≡ led (state_of self.old) side Take place.0 }
        ensures refused { AsBefore result self.old self.new }
    {
        self.lead(side, Move::take(place))
    }

    /// Fires a transition of a side.
    pub fn fire(&mut self, side: Side, transition: TransitionNo) -> Result<Due, LeadRefusal>
        ensures says { result ≡ handed (lead_says (state_of self.old) side Fire transition.0) }
        ensures after { state_of self.new ≡ led (state_of self.old) side Fire transition.0 }
        ensures refused { AsBefore result self.old self.new }
    {
        self.lead(side, Move::fire(transition))
    }

    // Leads with a move on a side, and hands out the due that an answer on the other side is owed to.
    // Inlined, as `Game::lead` is.
    #[inline(always)]
    fn lead(&mut self, side: Side, step: Move) -> Result<Due, LeadRefusal>
        ensures says { result ≡ handed (lead_says (state_of self.old) side step.sort step.number) }
        ensures after { state_of self.new ≡ led (state_of self.old) side step.sort step.number }
        ensures refused { AsBefore result self.old self.new }
    {
        let game = self.game.as_mut().ok_or(LeadRefusal::Closed)?;
        let lead = game.lead(side, step)?;
        Ok(Due { lead })
    }
}
