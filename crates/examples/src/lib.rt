// Worked examples, as tests of drawings, sheets and their refusals.
#![tactic(auto)]

#[cfg(test)]
mod drawings;
#[cfg(test)]
mod folding;
#[cfg(test)]
mod limits;
#[cfg(test)]
mod sheets;
