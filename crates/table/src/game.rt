// A game: what stands on an open table.
ghost use Rattle.play.specs.Invariant.{Kept};
ghost use Rattle.table.specs.Views.{sides_of, board_of};

use crate::half::Half;
use play::kinds::Lead;

pub mod between;
pub mod calls;
pub mod shows;
pub mod writes;

/// Two nets side by side, each with its tokens, and the lead that an answer is owed to, if one is. In every game that exists both
/// nets sit on one net, and the sides are even but for the lead that is owed an answer.
#[derive(Drop)]
pub struct Game {
    left: Half,
    right: Half,
    owed: Option<Lead>,
    ghost kept: { ∥ Kept (sides_of left right) (board_of left right owed) ∥₁ },
}
