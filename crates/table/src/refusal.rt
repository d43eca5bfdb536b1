// Why a table is not opened.
ghost use Rattle.std.specs.Prelude.{◌≡◌};
ghost use Rattle.table.specs.Opening.{open_number};
ghost use Rattle.table.specs.declared.refusal.OpenRefusal.TheVariants.{OnSide};

use normal::refusal::ReduceRefusal;
use play::kinds::Side;

/// What refuses the reduction of a side's net.
#[derive(Clone, Copy, PartialEq, Eq, Debug)]
pub struct SideRefusal {
    pub side: Side,
    pub refusal: ReduceRefusal,
}

/// The refusals of opening a table; the table is then as before. They are checked in this order: 31 on the left, 31 on the right,
/// 32 on the left, 32 on the right, 41.
#[derive(Clone, Copy, PartialEq, Eq, Debug)]
pub enum OpenRefusal {
    /// 31 or 32: the net of a side is not reduced.
    OnSide(SideRefusal),
    /// 41: the end sheets differ.
    Differ,
}

impl OpenRefusal {
    /// The number under which the refusal is listed.
    pub fn number(self) -> u8
        ensures { result ≡ open_number self }
    {
        match self {
            OpenRefusal::OnSide(SideRefusal { refusal, .. }) => refusal.number(),
            // No cast: an enum with a case that has a value has no numbers of its own.
            OpenRefusal::Differ => 41,
        }
    }
}

impl From<SideRefusal> for OpenRefusal {
    ghost from_gives = { λ e r. r ≡ OnSide e };

    fn from(refusal: SideRefusal) -> OpenRefusal {
        OpenRefusal::OnSide(refusal)
    }
}
