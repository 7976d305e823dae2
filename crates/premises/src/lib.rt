// The premise of the next question: the first open set, found without going through all sets.
#![tactic(auto)]

ghost use Rattle.std.specs.Prelude.{◌≡◌, ◌^◌, ◌<◌, IfSome};
ghost use Rattle.std.specs.Option.{option_map};
ghost use Rattle.attributes.specs.Numbers.{set_in};
ghost use Rattle.implications.specs.Values.{implications_in};
ghost use Rattle.premises.specs.Open.{first_open, first_open_from};

use attributes::AttributeSet;
use implications::Implications;

mod asked;
mod forces;
mod laws;
mod respecting;
mod search;

pub use asked::first_asked_from;
pub use forces::Forces;
pub use laws::{closure_is_common, first_laws, openness_monotone, search_may_begin};
use search::Search;

// The lectically first set that respects what is confirmed and lacks an attribute that it forces. It and the next are for callers that want the set
// alone; nothing here does.
pub fn first_open<F: Forces>(confirmed: &[u64], forces: &F) -> Option<AttributeSet>
    ensures value { option_map (λ q. set_in (F.Forces.width forces.now) q.bits) result ≡ first_open (F.Forces.width forces.now) (F.Forces.forced forces.now) (implications_in (F.Forces.width forces.now) confirmed.now) }
    ensures bound { IfSome result (λ q. q.bits < 2 ^ F.Forces.width forces.now) }
{
    first_open_from(confirmed, forces, AttributeSet::empty())
}

// The first of them that does not precede `from`.
pub fn first_open_from<F: Forces>(
    confirmed: &[u64],
    forces: &F,
    from: AttributeSet,
) -> Option<AttributeSet>
    ensures value { option_map (λ q. set_in (F.Forces.width forces.now) q.bits) result ≡ first_open_from (F.Forces.width forces.now) (F.Forces.forced forces.now) (implications_in (F.Forces.width forces.now) confirmed.now) (set_in (F.Forces.width forces.now) from.bits) }
    ensures bound { IfSome result (λ q. q.bits < 2 ^ F.Forces.width forces.now) }
{
    let confirmed = Implications {
        n: forces.count(),
        numbers: confirmed,
    };
    let search = Search {
        confirmed,
        forces,
        from: from.within(confirmed.n),
    };
    let least = confirmed.close(AttributeSet::empty());
    search.first_in_branch(0, least, false)
}
