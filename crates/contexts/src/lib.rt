// Objects by their attributes, in a lent row of numbers: what they have in common, and whether implications hold for them.
#![tactic(auto)]

mod context;
mod implication;
mod laws;

pub use context::Context;
pub use implication::Implication;
pub use laws::{common_laws, holds_by_common};
