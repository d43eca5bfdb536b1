// Why a table shows and suggests nothing.
ghost use Rattle.std.specs.Prelude.{◌≡◌};
ghost use Rattle.play.specs.Numbers.{show_number};

/// The refusal of showing and of suggesting.
#[derive(Clone, Copy, PartialEq, Eq, Debug)]
pub enum ShowRefusal {
    /// The table is closed.
    Closed = 42,
}

impl ShowRefusal {
    /// The number under which the refusal is listed.
    pub fn number(self) -> u8
        ensures { result ≡ show_number self }
    {
        self as u8
    }
}
