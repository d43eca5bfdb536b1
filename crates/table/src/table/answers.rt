// The calls that spend a due: answer and withdraw.
ghost use Rattle.std.specs.Prelude.{◌≡◌};
ghost use Rattle.play.specs.Calls.{answer_says, answered, withdraw_says, withdrawn};
ghost use Rattle.table.specs.Tables.{state_of, handed_back, AsBefore};

use super::Table;
use crate::due::Due;
use play::refusals::{AnswerRefusal, WithdrawRefusal};

impl Table {
    /// Answers the lead of a due by the same sort of move on the other side. Accepted, it spends the due; refused, it hands that due
    /// back.
    pub fn answer(&mut self, due: Due, number: u8) -> Result<(), (AnswerRefusal, Due)>
        ensures says { result ≡ handed_back due (answer_says (state_of self.old) due.lead number) }
        ensures after { state_of self.new ≡ answered (state_of self.old) due.lead number }
        ensures refused { AsBefore result self.old self.new }
    {
        // Not by `and_then`: that was tried, and what the closure writes back into the table was not proved.
        let answered = match &mut self.game {
            Some(game) => game.answer(due.lead, number),
            None => Err(AnswerRefusal::Closed),
        };
        due.settle(answered)
    }

    /// Takes back the lead of a due: the leading side is put back. Accepted, it spends the due; refused, it hands that due back.
    pub fn withdraw(&mut self, due: Due) -> Result<(), (WithdrawRefusal, Due)>
        ensures says { result ≡ handed_back due (withdraw_says (state_of self.old) due.lead) }
        ensures after { state_of self.new ≡ withdrawn (state_of self.old) due.lead }
        ensures refused { AsBefore result self.old self.new }
    {
        // A match, as in `answer`.
        let withdrawn = match &mut self.game {
            Some(game) => game.withdraw(due.lead),
            None => Err(WithdrawRefusal::Closed),
        };
        due.settle(withdrawn)
    }
}
