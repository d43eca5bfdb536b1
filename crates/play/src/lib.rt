// Play on a table of two seated nets: the words of the calls, what each call says and does, and the law over runs of calls.
#![tactic(auto)]

pub mod kinds;
pub mod law;
pub mod refusals;
