// What a game suggests.
ghost use Rattle.std.specs.Prelude.{◌≡◌};
ghost use Rattle.play.specs.Shows.{suggestion_for};
ghost use Rattle.table.specs.Tables.{sides_in, board_in};

use super::Game;

impl Game {
    /// The lowest number that an answer to what is owed is accepted with, and none when nothing is owed.
    pub fn suggest(&self) -> Option<u8>
        ensures { result ≡ suggestion_for (sides_in self.now) (board_in self.now) self.now.owed }
    {
        let lead = self.owed?;
        let half = self.half(lead.side.other());
        (0..half.numbers(lead.sort)).find(|number| half.accepts(lead, *number))
    }
}
