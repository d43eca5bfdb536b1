// Why a lead is refused.
ghost use Rattle.std.specs.Prelude.{◌≡◌};
ghost use Rattle.play.specs.Numbers.{lead_number};

/// The refusals of put, take and fire, in the order in which they are checked.
#[derive(Clone, Copy, PartialEq, Eq, Debug)]
pub enum LeadRefusal {
    /// The table is closed.
    Closed = 42,
    /// An answer is owed.
    AnswerOwed = 43,
    /// The side has no place or transition with this number.
    NoSuchNumber = 44,
    /// The side lacks tokens that the move takes.
    TokensLacking = 45,
    /// After the move the side would have more than 1,000,000 tokens.
    TooManyTokens = 46,
}

impl LeadRefusal {
    /// The number under which the refusal is listed.
    pub fn number(self) -> u8
        ensures { result ≡ lead_number self }
    {
        self as u8
    }
}
