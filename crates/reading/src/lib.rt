// Answers, contexts and lists read from bytes.
#![tactic(auto)]

mod answers;
mod rows;

pub use answers::answers_from;
pub use rows::{behind_list, context_from_bytes, list_from_bytes};
