// Why a net's sheet is not written.
ghost use Rattle.std.specs.Prelude.{◌≡◌};
ghost use Rattle.writer.specs.Refusals.{number_of};

/// The refusals of writing; the buffer is then as before.
#[derive(Clone, Copy, PartialEq, Eq, Debug)]
pub enum WriteRefusal {
    /// 31: the buffer has fewer bytes than the longest sheet, 16,627, whatever the net needs.
    ShortBuffer = 31,
}

// No trait gives the refusal enums their `number`: nothing is generic over refusals, and each crate lists its own.
impl WriteRefusal {
    /// The number under which the refusal is listed.
    pub fn number(self) -> u8
        ensures { result ≡ number_of self }
    {
        self as u8
    }
}
