// Lists of implications, in a lent row of numbers: a premise and a conclusion in turn.
#![tactic(auto)]

mod iter;
mod laws;
mod list;

pub use iter::Iter;
pub use laws::{follows_by_closure, meet_respects, one_closure, one_set_decides};
pub use list::Implications;
