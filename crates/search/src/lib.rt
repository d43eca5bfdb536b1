// The search of the least arrangement of a net, row by row. (Numbers of places and transitions are read as indices by `as usize`:
// `usize::from` was tried in the files on cells, rows, rankings and the descent, and goals that read through it did not close.)
#![tactic(auto)]

mod cells;
mod descent;
mod found;
pub mod least;
mod order;
pub mod ranking;
mod rows;
