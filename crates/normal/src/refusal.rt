// Why a net is not reduced.
ghost use Rattle.std.specs.Prelude.{◌≡◌};
ghost use Rattle.normal.specs.Numbers.{number_of};
ghost use Rattle.normal.specs.declared.refusal.ReduceRefusal.TheVariants.{ShortBuffer};

use writer::refusal::WriteRefusal;

/// The refusals of a reduction, in the order in which they are checked; the buffer is then as before.
#[derive(Clone, Copy, PartialEq, Eq, Debug)]
pub enum ReduceRefusal {
    /// 31: the buffer has fewer bytes than the longest sheet, 16,627, whatever the net needs.
    ShortBuffer = 31,
    /// 32: the folded net has more than 40,320 arrangements.
    TooManyArrangements = 32,
}

impl ReduceRefusal {
    // A method of each refusal enum: a number is read off by a cast, which a trait would repeat in each of its impls.
    /// The number under which the refusal is listed.
    pub fn number(self) -> u8
        ensures { result ≡ number_of self }
    {
        self as u8
    }
}

/// A buffer that is too short to write to is too short to reduce to.
impl From<WriteRefusal> for ReduceRefusal {
    ghost from_gives = { λ _ r. r ≡ ShortBuffer };

    fn from(_refusal: WriteRefusal) -> ReduceRefusal {
        ReduceRefusal::ShortBuffer
    }
}
