// Any net's sheet, written at the front of a buffer.
#![tactic(auto)]

mod pen;
pub mod refusal;
pub mod write;
