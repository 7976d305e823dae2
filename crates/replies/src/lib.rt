// What the entries of an exploration reply, and how it is told.
#![tactic(auto)]

mod reply;
mod turn;

pub use reply::{Refusal, Reply};
pub use turn::{Step, Turn};
