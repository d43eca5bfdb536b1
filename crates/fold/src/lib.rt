// Folding a net: its places and transitions in groups, refined round by round until no round parts anything.
#![tactic(auto)]

mod counts;
pub mod division;
mod exchange;
pub mod fold;
pub mod folded;
mod grouped;
pub mod grouping;
mod labels;
mod leaders;
mod likeness;
mod places;
mod rounds;
mod transitions;
