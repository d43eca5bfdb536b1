// One side of a game.
ghost use Rattle.std.specs.Prelude.{◌≤◌};
ghost use Rattle.drawing.specs.Drawn.{drawn};
ghost use Rattle.play.specs.Moves.{most_tokens, total};

use drawing::Drawing;
use normal::seats::Seats;

pub mod moves;
pub mod shift;
pub mod shows;

/// A net, the seats of its places and transitions, and the tokens on its places, of which there are at most 1,000,000.
#[derive(Drop)]
pub struct Half {
    net: Drawing,
    seats: Seats,
    // One count for each place, in the first of them: a vector would have the number of places a second time, as its own length.
    tokens: [u32; 64],
    ghost room: { total (drawn net) tokens ≤ most_tokens },
}
