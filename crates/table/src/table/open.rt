// Opening a table on two nets.
ghost use Rattle.std.specs.Prelude.{◌≡◌};
ghost use Rattle.normal.specs.Reductions.{reduced_buffer};
ghost use Rattle.table.specs.Opening.{open_says, AfterOpen, SheetsDecide};

use super::Table;
use crate::game::Game;
use crate::order::both_reduced;
use crate::refusal::OpenRefusal;
use net::interface::Net;
use normal::reduce::reduce_seated;
use normal::seats::Seats;
use normal::sheets::same_sheet;

impl Table {
    /// Opens the table on two nets of any two makes. Both are reduced, each into its buffer and even when the other is refused; on
    /// equal end sheets the table keeps copies of both nets and their seats, has no tokens and owes nothing. An open table can be
    /// opened again.
    pub fn open<L: Net, R: Net>(
        &mut self,
        left: &L,
        right: &R,
        left_buffer: &mut [u8],
        right_buffer: &mut [u8],
    ) -> Result<(), OpenRefusal>
        ensures says { result ≡ open_says (L.Net.model left.now) (R.Net.model right.now) left_buffer.old right_buffer.old }
        ensures left_sheet { left_buffer.new ≡ reduced_buffer (L.Net.model left.now) left_buffer.old }
        ensures right_sheet { right_buffer.new ≡ reduced_buffer (R.Net.model right.now) right_buffer.old }
        ensures after { AfterOpen result (L.Net.model left.now) (R.Net.model right.now) self.old self.new }
        ensures decides { SheetsDecide (L.Net.model left.now) (R.Net.model right.now) left_buffer.old right_buffer.old }
    {
        // Left and right stand apart, and in no array: they are nets of two makes.
        let mut left_seats = Seats::new();
        let mut right_seats = Seats::new();
        let on_left = reduce_seated(left, left_buffer, &mut left_seats);
        let on_right = reduce_seated(right, right_buffer, &mut right_seats);
        let (left_reduction, right_reduction) = both_reduced(on_left, on_right)?;
        let left_sheet = &left_buffer[..left_reduction.length];
        let right_sheet = &right_buffer[..right_reduction.length];
        if !same_sheet(left_sheet, right_sheet) {
            return Err(OpenRefusal::Differ);
        }
        self.game = Some(Game::between(left, left_seats, right, right_seats));
        Ok(())
    }
}
