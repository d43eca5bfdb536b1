// A new game between two nets.
ghost use Rattle.std.specs.Prelude.{◌≡◌};
ghost use Rattle.arrangement.specs.EndSheets.{end_sheet};
ghost use Rattle.arrangement.specs.Seats.{Seating};
ghost use Rattle.normal.specs.Seatings.{seated_by};
ghost use Rattle.table.specs.Tables.{state_in};
ghost use Rattle.table.specs.Opening.{OpenedOn};

use super::Game;
use crate::half::Half;
use drawing::Drawing;
use net::interface::Net;
use normal::seats::Seats;

impl Game {
    /// A game between copies of two nets that have one end sheet, seated along it. It has no tokens, and owes nothing.
    pub fn between<L: Net, R: Net>(
        left: &L,
        left_seats: Seats,
        right: &R,
        right_seats: Seats,
    ) -> Game
        requires left_seated { Seating (seated_by (L.Net.model left.now) left_seats) }
        requires right_seated { Seating (seated_by (R.Net.model right.now) right_seats) }
        requires one_sheet { end_sheet (L.Net.model left.now) ≡ end_sheet (R.Net.model right.now) }
        ensures { OpenedOn (L.Net.model left.now) (R.Net.model right.now) (state_in result) }
    {
        Game {
            left: Half::new(Drawing::copy_of(left), left_seats),
            right: Half::new(Drawing::copy_of(right), right_seats),
            owed: None,
        }
    }
}
