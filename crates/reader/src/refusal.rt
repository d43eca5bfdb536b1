// Why bytes are refused as a sheet.
ghost use Rattle.std.specs.Prelude.{◌≡◌};
ghost use Rattle.reader.specs.Refusals.{number_of};

/// The refusals of a sheet, in the order in which they are checked, each with the number under which it is listed; the reader is then as before.
#[derive(Clone, Copy, PartialEq, Eq, Debug)]
pub enum SheetRefusal {
    /// Fewer than three bytes.
    Short = 1,
    /// The form is not 1.
    Form = 2,
    /// More than 64 places.
    Places = 3,
    /// More than 128 transitions.
    Transitions = 4,
    /// Not the length of the fields.
    Length = 5,
    /// A cause or effect has a size above 255.
    BagTooLarge = 6,
    /// A bit after the fields is not zero.
    Fill = 7,
}

// Each enum of refusals has a `number` of its own: it is read off by a cast, and a trait over the enums would have that cast in each impl again.
impl SheetRefusal {
    /// The number under which the refusal is listed.
    pub fn number(self) -> u8
        ensures { result ≡ number_of self }
    {
        self as u8
    }
}
