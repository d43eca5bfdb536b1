// A table: closed, or open on a game.
use crate::game::Game;

pub mod answers;
pub mod leads;
pub mod open;
pub mod shows;

/// A table on which two nets are played side by side. A closed one holds nothing; what holds of an open one stands at `Game`.
#[derive(Drop)]
pub struct Table {
    game: Option<Game>,
}
