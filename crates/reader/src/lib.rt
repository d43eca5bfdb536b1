// A sheet answers as a net, from the caller's bytes.
#![tactic(auto)]

mod bits;
mod check;
mod fields;
mod head;
pub mod refusal;
mod row;
pub mod sheet;
mod widths;
