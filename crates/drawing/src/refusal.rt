// Why an edit of a drawing is refused.
ghost use Rattle.std.specs.Prelude.{◌≡◌};
ghost use Rattle.drawing.specs.Refusals.{number_of};

/// The refusals of a drawing, in the order in which they are checked, each with the number under which it is listed. A drawing
/// whose edit is refused is as before.
#[derive(Clone, Copy, PartialEq, Eq, Debug)]
pub enum DrawingRefusal {
    /// All 64 places, or all 128 transitions, are used.
    Full = 11,
    /// The label is above 1,023.
    LabelTooHigh = 12,
    /// There is no such place or no such transition.
    NoSuchNumber = 13,
    /// The size of the cause or effect would pass 255.
    BagTooLarge = 14,
}

impl DrawingRefusal {
    // A method of each refusal enum: a number is read off by a cast, which a trait would repeat in each of its impls.
    /// The number under which the refusal is listed.
    pub fn number(self) -> u8
        ensures { result ≡ number_of self }
    {
        self as u8
    }
}
