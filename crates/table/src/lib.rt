// The table on which two nets are played side by side: a lead on one side hands out a due, which an answer on the other side or a withdrawal spends.
#![tactic(auto)]

pub mod due;
mod game;
mod half;
mod order;
pub mod refusal;
pub mod table;
