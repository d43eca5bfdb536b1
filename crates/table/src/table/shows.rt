// What a table shows of its sides, and what it suggests.
ghost use Rattle.std.specs.Prelude.{◌≡◌, Some, None, MatchResult};
ghost use Rattle.play.specs.declared.refusals.show.ShowRefusal.TheVariants.{Closed};
ghost use Rattle.play.specs.Shows.{tokens_says, fires_says, suggest_says};
ghost use Rattle.table.specs.Tables.{state_of};

use super::Table;
use crate::game::Game;
use net::numbers::Label;
use play::kinds::Side;
use play::refusals::ShowRefusal;

impl Table {
    /// How many tokens a side has on places with a label.
    pub fn tokens(&self, side: Side, label: Label) -> Result<u32, ShowRefusal>
        ensures { result ≡ tokens_says (state_of self.now) side label.0 }
    {
        Ok(self.shown()?.half(side).label_tokens(label))
    }

    /// Whether a side can fire a transition with a label.
    pub fn can_fire(&self, side: Side, label: Label) -> Result<bool, ShowRefusal>
        ensures { result ≡ fires_says (state_of self.now) side label.0 }
    {
        Ok(self.shown()?.half(side).can_fire(label))
    }

    /// The lowest number that an answer to what is owed is accepted with, and none when nothing is owed.
    pub fn suggest(&self) -> Result<Option<u8>, ShowRefusal>
        ensures { result ≡ suggest_says (state_of self.now) }
    {
        Ok(self.shown()?.suggest())
    }

    // The game, which only an open table shows.
    fn shown(&self) -> Result<&Game, ShowRefusal>
        ensures { MatchResult result (λ g. self.now.game ≡ Some g.now) (λ e. (self.now.game ≡ None) × (e ≡ Closed)) }
    {
        self.game.as_ref().ok_or(ShowRefusal::Closed)
    }
}
