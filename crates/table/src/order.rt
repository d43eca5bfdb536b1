// The refusals of two reductions, raised in the listed order.
ghost use Rattle.std.specs.Prelude.{◌≡◌};
ghost use Rattle.table.specs.Opening.{short_of, on_side, both_reduced};

use crate::refusal::{OpenRefusal, SideRefusal};
use normal::reduction::Reduction;
use normal::refusal::ReduceRefusal;
use play::kinds::Side;

// What reducing a net gave.
pub(crate) type Reduced = Result<Reduction, ReduceRefusal>;

// A short buffer alone: on either side it comes before too many arrangements.
fn short_of(reduced: Reduced) -> Result<(), ReduceRefusal>
    ensures { result ≡ short_of reduced }
{
    // By arms: no method of `Result` drops one refusal and keeps the other.
    match reduced {
        Err(ReduceRefusal::ShortBuffer) => Err(ReduceRefusal::ShortBuffer),
        Err(ReduceRefusal::TooManyArrangements) | Ok(_) => Ok(()),
    }
}

// What a reduction gave, its refusal as that of its side. No `From`: a reduction's refusal does not know its side.
fn on_side<T>(side: Side, reduced: Result<T, ReduceRefusal>) -> Result<T, SideRefusal>
    ensures { result ≡ on_side side reduced }
{
    reduced.map_err(|refusal| SideRefusal { side, refusal })
}

// Both reductions, or the first refusal of either: 31 on the left, 31 on the right, 32 on the left, 32 on the right.
pub(crate) fn both_reduced(
    left: Reduced,
    right: Reduced,
) -> Result<(Reduction, Reduction), OpenRefusal>
    ensures { result ≡ both_reduced left right }
{
    on_side(Side::Left, short_of(left))?;
    on_side(Side::Right, short_of(right))?;
    let left = on_side(Side::Left, left)?;
    let right = on_side(Side::Right, right)?;
    Ok((left, right))
}
