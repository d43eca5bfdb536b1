// The report on two framed sheets, as bytes.
#![tactic(auto)]

mod frame;
mod line;
pub mod report;
mod side;
#[cfg(test)]
mod tests;
pub mod text;
