// The normal form of a net: its end sheet in bytes, and the seats that go with it.
#![tactic(auto)]

mod count;
mod groups;
mod ordered;
pub mod reduce;
pub mod reduction;
pub mod refusal;
pub mod seats;
pub mod sheets;
