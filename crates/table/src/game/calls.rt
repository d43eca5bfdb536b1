// The calls that change a game: lead, answer and withdraw. A refused one leaves it as it was.
ghost use Rattle.std.specs.Prelude.{◌≡◌};
ghost use Rattle.play.specs.States.{owes};
ghost use Rattle.play.specs.Calls.{lead_says, led, answer_says, answered, withdraw_says, withdrawn};
ghost use Rattle.table.specs.Tables.{state_in, AsBefore};

use super::Game;
use play::kinds::{Lead, Move, Side};
use play::refusals::{AnswerRefusal, LeadRefusal, WithdrawRefusal};

impl Game {
    /// Leads with a move on a side, and records the lead that an answer on the other side is owed to.
    // Inlined into put, take and fire, each of which knows its sort of move: the loops over the places need not ask for it.
    #[inline(always)]
    pub fn lead(&mut self, side: Side, step: Move) -> Result<Lead, LeadRefusal>
        ensures says { result ≡ lead_says (state_in self.old) side step.sort step.number }
        ensures after { state_in self.new ≡ led (state_in self.old) side step.sort step.number }
        ensures refused { AsBefore result self.old self.new }
    {
        if self.owed.is_some() {
            return Err(LeadRefusal::AnswerOwed);
        }
        let half = self.half(side);
        let tokens = half.lead(step)?.tokens();
        let lead = Lead {
            side,
            sort: step.sort,
            number: step.number,
            seat: half.seat(step),
        };
        self.write(side, tokens, Some(lead));
        Ok(lead)
    }

    /// Answers a lead by the same sort of move on the other side; then nothing is owed.
    pub fn answer(&mut self, lead: Lead, number: u8) -> Result<(), AnswerRefusal>
        ensures says { result ≡ answer_says (state_in self.old) lead number }
        ensures after { state_in self.new ≡ answered (state_in self.old) lead number }
        ensures refused { AsBefore result self.old self.new }
    {
        if !self.owes(lead) {
            return Err(AnswerRefusal::NotOwed);
        }
        let side = lead.side.other();
        let tokens = self.half(side).reply(lead, number)?.tokens();
        self.write(side, tokens, None);
        Ok(())
    }

    /// Takes back a lead: the leading side is put back, and nothing is owed.
    pub fn withdraw(&mut self, lead: Lead) -> Result<(), WithdrawRefusal>
        ensures says { result ≡ withdraw_says (state_in self.old) lead }
        ensures after { state_in self.new ≡ withdrawn (state_in self.old) lead }
        ensures refused { AsBefore result self.old self.new }
    {
        // The test of `answer` again, since each raises its own refusal.
        if !self.owes(lead) {
            return Err(WithdrawRefusal::NotOwed);
        }
        let tokens = self.half(lead.side).undo(lead.step()).tokens();
        self.write(lead.side, tokens, None);
        Ok(())
    }

    // Whether an answer is owed to a lead.
    fn owes(&self, lead: Lead) -> bool
        ensures { result ≡ owes self.now.owed lead }
    {
        self.owed == Some(lead)
    }
}
