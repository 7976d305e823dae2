// The least list of implications for a context and for a list.
#![tactic(auto)]

ghost use Rattle.std.specs.Prelude.{◌≡◌, length, None};
ghost use Rattle.premises.specs.Forced.{respecting};
ghost use Rattle.bases.specs.Laws.{ExploredBase, Shortest};
ghost use Rattle.bases.specs.Rows.{Output, attributes_in, context_in, fault, list_in, result_of};

use contexts::Context;
use implications::Implications;
use row::{Checked, check};
use writing::fill;

mod has_context;
mod refusal;
mod row;
mod theorems;
mod writing;

pub use refusal::Refusal;
pub use row::{BASE_LENGTH, implications_of};
pub use theorems::one_base;

// Writes the list that an exploration of a context confirms: n, the count, and two numbers for each implication. The context has n, the count
// and a number for each object. The output has room for 4,096 implications.
pub fn base_of_context(context: &[u64], base: &mut [u64]) -> Result<(), Refusal>
    ensures reply { result ≡ result_of (fault 1 context.now (length base.old)) }
    ensures output { Output (fault 1 context.now (length base.old)) (attributes_in context.now) (context_in context.now) base.old base.new }
    ensures meaning { fault 1 context.now (length base.old) ≡ None → ExploredBase (attributes_in context.now) (context_in context.now) (list_in base.new) }
{
    let Checked { n, rows: objects } = check(context, 1, base.len())?;
    fill(&Context { n, objects }, base);
    Ok(())
}

// Writes the list that an exploration of the sets that respect a list confirms. The list has n, the count and two numbers for each implication.
// The two entries share `check` and `fill`; one generic function for them would need a trait with a width and a constructor, and be no shorter.
pub fn base_of_list(list: &[u64], base: &mut [u64]) -> Result<(), Refusal>
    ensures reply { result ≡ result_of (fault 2 list.now (length base.old)) }
    ensures output { Output (fault 2 list.now (length base.old)) (attributes_in list.now) (respecting (attributes_in list.now) (list_in list.now)) base.old base.new }
    ensures meaning { fault 2 list.now (length base.old) ≡ None → Shortest (attributes_in list.now) (list_in list.now) (list_in base.new) }
{
    let Checked { n, rows: numbers } = check(list, 2, base.len())?;
    fill(&Implications { n, numbers }, base);
    Ok(())
}
