// What is asked next, found by going through the sets that respect what is confirmed.
ghost use Rattle.std.specs.Prelude.{◌≡◌, ◌^◌, ◌<◌, IfSome};
ghost use Rattle.std.specs.Option.{option_map};
ghost use Rattle.attributes.specs.Numbers.{set_in};
ghost use Rattle.contexts.specs.Values.{implication_at};
ghost use Rattle.implications.specs.Values.{implications_in};
ghost use Rattle.premises.specs.Open.{about, first_open_from};

use crate::forces::Forces;
use crate::respecting::next_respecting;
use attributes::AttributeSet;
use contexts::Implication;
use implications::Implications;

// What is asked about the first open set that does not precede `from`. What is confirmed is read with the n of what forces, so it comes without
// one of its own. The search goes through the sets that respect what is confirmed, and begins at `from`, or behind it if `from` is none of them.
pub fn first_asked_from<F: Forces>(
    confirmed: &[u64],
    forces: &F,
    from: AttributeSet,
) -> Option<Implication>
    ensures value { option_map (implication_at (F.Forces.width forces.now)) result ≡ option_map (about (F.Forces.forced forces.now)) (first_open_from (F.Forces.width forces.now) (F.Forces.forced forces.now) (implications_in (F.Forces.width forces.now) confirmed.now) (set_in (F.Forces.width forces.now) from.bits)) }
    ensures bound { IfSome result (λ i. (i.premise.bits < 2 ^ F.Forces.width forces.now) × (i.conclusion.bits < 2 ^ F.Forces.width forces.now)) }
{
    let confirmed = Implications {
        n: forces.count(),
        numbers: confirmed,
    };
    let from = from.within(confirmed.n);
    let mut reached = if confirmed.first_broken(from).is_none() {
        Some(from)
    } else {
        next_respecting(&confirmed, from)
    };
    while let Some(premise) = reached {
        let conclusion = forces.forced_by(premise);
        if !conclusion.is_subset_of(premise) {
            return Some(Implication {
                premise,
                conclusion,
            });
        }
        reached = next_respecting(&confirmed, premise);
    }
    None
}
