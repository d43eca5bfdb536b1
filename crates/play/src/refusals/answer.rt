// Why an answer is refused.
ghost use Rattle.std.specs.Prelude.{◌≡◌};
ghost use Rattle.play.specs.Numbers.{answer_number};

/// The refusals of an answer, in the order in which they are checked.
#[derive(Clone, Copy, PartialEq, Eq, Debug)]
pub enum AnswerRefusal {
    /// The table is closed.
    Closed = 42,
    /// The table does not owe this due.
    NotOwed = 47,
    /// The answering side has no place or transition with this number.
    NoSuchNumber = 44,
    /// The place or transition has another seat than the one led with.
    OtherSeat = 48,
    /// The answering side lacks tokens that the move takes.
    TokensLacking = 45,
}

impl AnswerRefusal {
    /// The number under which the refusal is listed.
    pub fn number(self) -> u8
        ensures { result ≡ answer_number self }
    {
        self as u8
    }
}
