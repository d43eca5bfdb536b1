// Labelled place/transition nets: the numbers and labels, and what every net answers.
#![tactic(auto)]

pub mod bag;
pub mod interface;
pub mod limits;
pub mod node;
pub mod numbers;
