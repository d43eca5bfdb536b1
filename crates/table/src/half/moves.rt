// What one side has, and the moves that it allows: a lead, a reply, and a lead that is undone.
ghost use Rattle.std.specs.Prelude.{◌≡◌, ◌<◌, ◌≤◌, true, false, nat_le, take, MatchOption};
ghost use Rattle.net.specs.declared.bag.Bag.TheVariants.{Cause, Effect};
ghost use Rattle.arrangement.specs.Arrangements.{at};
ghost use Rattle.drawing.specs.Drawn.{drawn};
ghost use Rattle.normal.specs.Seatings.{seated_by};
ghost use Rattle.play.specs.Moves.{most_tokens, numbers, seat_of, takes, covers, total, bare};
ghost use Rattle.play.specs.Calls.{move_says, reply_says};
ghost use Rattle.table.specs.Views.{net_of, seated_of, held, weight_of, CoversBag};
ghost use Rattle.table.specs.Shifts.{IsShift, Allows};

use super::Half;
use super::shift::Shift;
use drawing::Drawing;
use net::bag::{Bag, weight};
use net::interface::Net;
use net::numbers::{PlaceNo, Seat, TransitionNo};
use normal::seats::Seats;
use play::kinds::{Lead, Move, Sort};
use play::refusals::{AnswerRefusal, LeadRefusal};

/// The most tokens that a side holds.
const MOST_TOKENS: u32 = 1_000_000;

// The clauses name a half's net and its tokens apart, since the words of play know no half.
impl Half {
    /// A net with its seats, and no tokens.
    pub fn new(net: Drawing, seats: Seats) -> Half
        ensures seated { seated_of result ≡ seated_by (drawn net) seats }
        ensures bare { held result ≡ bare (drawn net) }
    {
        Half {
            net,
            seats,
            tokens: [0; 64],
        }
    }

    /// How many numbers there are to move with.
    pub fn numbers(&self, sort: Sort) -> u8
        ensures { result ≡ numbers (net_of self.now) sort }
    {
        match sort {
            Sort::Put | Sort::Take => self.net.places(),
            Sort::Fire => self.net.transitions(),
        }
    }

    /// The seat of what a move names.
    pub fn seat(&self, step: Move) -> Seat
        ensures { result.0 ≡ seat_of (seated_of self.now) step.sort step.number }
    {
        match step.sort {
            Sort::Put | Sort::Take => self.seats.places.of(PlaceNo(step.number)),
            Sort::Fire => self.seats.transitions.of(TransitionNo(step.number)),
        }
    }

    // The tokens on a place that there is. The loops over the places ask it of those alone, so it has no test.
    pub(crate) fn tokens_at(&self, place: u8) -> u32
        requires { place < (net_of self.now).places }
        ensures value { result ≡ at (held self.now) place }
        ensures bound { result ≤ most_tokens }
    {
        self.tokens[usize::from(place)]
    }

    /// How many tokens a bag of a move has on a place: the cause is what the move takes, the effect what it gives.
    #[tactic(auto, unfolding(bisimulation::specs::Rounds::unit))]
    pub fn weight(&self, bag: Bag, step: Move, place: u8) -> u8
        ensures { result ≡ weight_of (net_of self.now) bag step.sort step.number place }
    {
        match (step.sort, bag) {
            (Sort::Put, Bag::Cause) | (Sort::Take, Bag::Effect) => 0,
            (Sort::Put, Bag::Effect) | (Sort::Take, Bag::Cause) => u8::from(step.number == place),
            (Sort::Fire, bag) => weight(&self.net, bag, TransitionNo(step.number), PlaceNo(place)),
        }
    }

    /// Whether the side lacks no token that a move takes.
    pub fn covers(&self, step: Move) -> bool
        ensures { result ≡ covers (net_of self.now) (held self.now) step.sort step.number }
    {
        (0..self.net.places()).all(|x| self.has(step, x))
    }

    // Whether a place has the tokens that a move takes from it.
    fn has(&self, step: Move, place: u8) -> bool
        requires { place < (net_of self.now).places }
        ensures { result ≡ nat_le (takes (net_of self.now) step.sort step.number place) (at (held self.now) place) }
    {
        u32::from(self.weight(Bag::Cause, step, place)) <= self.tokens_at(place)
    }

    // A move whose cause the side covers.
    fn cover(&self, step: Move) -> Option<Shift<'_>>
        ensures { MatchOption result (covers (net_of self.now) (held self.now) step.sort step.number ≡ false) (λ s. IsShift s self.now step Cause × (covers (net_of self.now) (held self.now) step.sort step.number ≡ true)) }
    {
        // Not by `then`: its closure would have to ask what the ghost field says, as long again as this.
        if !self.covers(step) {
            return None;
        }
        Some(Shift {
            half: self,
            step,
            off: Bag::Cause,
        })
    }

    /// The move of a lead, or why the lead is refused.
    pub fn lead(&self, step: Move) -> Result<Shift<'_>, LeadRefusal>
        ensures { Allows result self.now step (seat_of (seated_of self.now) step.sort step.number) (move_says (seated_of self.now) (held self.now) step.sort step.number) }
    {
        if step.number >= self.numbers(step.sort) {
            return Err(LeadRefusal::NoSuchNumber);
        }
        let shift = self.cover(step).ok_or(LeadRefusal::TokensLacking)?;
        if shift.total() > MOST_TOKENS {
            return Err(LeadRefusal::TooManyTokens);
        }
        Ok(shift)
    }

    /// The move of an answer to a lead on the other side, or why the answer is refused.
    // Inlined, since a suggestion asks it of one number after the other, and most have another seat.
    #[inline]
    pub fn reply(&self, lead: Lead, number: u8) -> Result<Shift<'_>, AnswerRefusal>
        ensures { Allows result self.now (record { sort = lead.sort; number = number }) tt (reply_says (seated_of self.now) (held self.now) lead.sort lead.seat.0 number) }
    {
        let step = Move {
            sort: lead.sort,
            number,
        };
        // The test of `lead` again: each raises its own refusal, in its own order.
        if step.number >= self.numbers(step.sort) {
            return Err(AnswerRefusal::NoSuchNumber);
        }
        if self.seat(step) != lead.seat {
            return Err(AnswerRefusal::OtherSeat);
        }
        self.cover(step).ok_or(AnswerRefusal::TokensLacking)
    }

    /// A move to be undone.
    pub fn undo(&self, step: Move) -> Shift<'_>
        requires { CoversBag (net_of self.now) (held self.now) Effect step.sort step.number }
        ensures { IsShift result self.now step Effect }
    {
        Shift {
            half: self,
            step,
            off: Bag::Effect,
        }
    }

    /// Replaces the tokens.
    pub fn hold(&mut self, tokens: [u32; 64])
        requires { total (net_of self.old) tokens ≤ most_tokens }
        ensures seated { seated_of self.new ≡ seated_of self.old }
        ensures held { held self.new ≡ take (net_of self.old).places tokens }
    {
        // An array is handed on from `Shift::tokens` through `write`, since that is what the side keeps.
        self.tokens = tokens;
    }
}
