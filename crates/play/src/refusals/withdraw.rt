// Why a withdrawal is refused.
ghost use Rattle.std.specs.Prelude.{◌≡◌};
ghost use Rattle.play.specs.Numbers.{withdraw_number};

/// The refusals of a withdrawal, in the order in which they are checked.
#[derive(Clone, Copy, PartialEq, Eq, Debug)]
pub enum WithdrawRefusal {
    /// The table is closed.
    Closed = 42,
    /// The table does not owe this due.
    NotOwed = 47,
}

impl WithdrawRefusal {
    /// The number under which the refusal is listed.
    pub fn number(self) -> u8
        ensures { result ≡ withdraw_number self }
    {
        self as u8
    }
}
