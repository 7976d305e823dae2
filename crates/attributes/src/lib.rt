// Sets of attributes as bit masks, and how many attributes there are.
#![tactic(auto)]

mod count;
mod laws;
mod set;

pub use count::{AttributeCount, MOST_ATTRIBUTES, TooManyAttributes};
pub use laws::{lectic_agrees, less_precedes, order_laws};
pub use set::AttributeSet;
