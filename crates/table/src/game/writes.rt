// Reading and writing one side of a game.
ghost use Rattle.std.specs.Prelude.{◌≡◌, take};
ghost use Rattle.play.specs.Invariant.{Kept};
ghost use Rattle.play.specs.States.{opened, seated, with_marking};
ghost use Rattle.table.specs.Tables.{half_on, sides_in, board_in, state_in};

use super::Game;
use crate::half::Half;
use play::kinds::{Lead, Side};

impl Game {
    /// The half on a side.
    pub fn half(&self, side: Side) -> &Half
        ensures { result.now ≡ half_on self.now side }
    {
        match side {
            Side::Left => &self.left,
            Side::Right => &self.right,
        }
    }

    /// Replaces the tokens of a side and what is owed.
    pub fn write(&mut self, side: Side, tokens: [u32; 64], owed: Option<Lead>)
        requires { ∥ Kept (sides_in self.old) (with_marking (board_in self.old) side (take (seated (sides_in self.old) side).net.places tokens) owed) ∥₁ }
        ensures { state_in self.new ≡ opened (sides_in self.old) (with_marking (board_in self.old) side (take (seated (sides_in self.old) side).net.places tokens) owed) }
    {
        // The side is matched here too, and not handed out to be changed: what a game keeps holds again only once `owed` is written.
        match side {
            Side::Left => self.left.hold(tokens),
            Side::Right => self.right.hold(tokens),
        }
        self.owed = owed;
    }
}
