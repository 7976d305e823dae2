// The sets that respect a list of implications, one after another in lectic order.
ghost use Rattle.std.specs.Prelude.{◌≡◌, ◌^◌, ◌<◌, IfSome, MatchOption};
ghost use Rattle.std.specs.Option.{option_map};
ghost use Rattle.attributes.specs.Numbers.{set_in};
ghost use Rattle.attributes.specs.Sets.{Set};
ghost use Rattle.implications.specs.Lists.{said_by};
ghost use Rattle.premises.specs.Respecting.{LeastInBranch, NextBranch, next_respecting};

use attributes::AttributeSet;
use implications::Implications;

// The first behind s. It differs from s first in an attribute that s lacks, and the higher that attribute is the sooner it comes. A `find_map` was
// tried, and its proof did not close.
pub(crate) fn next_respecting(list: &Implications, s: AttributeSet) -> Option<AttributeSet>
    requires { s.bits < 2 ^ list.now.n.value }
    ensures value { option_map (λ q. set_in list.now.n.value q.bits) result ≡ next_respecting list.now.n.value (said_by list.now) (set_in list.now.n.value s.bits) }
    ensures bound { IfSome result (λ q. q.bits < 2 ^ list.now.n.value) }
{
    for attribute in (0..list.n.get()).rev() {
        if !s.contains(attribute) {
            let next = least_with(list, s, attribute);
            if next.is_some() {
                return next;
            }
        }
    }
    None
}

// The least that has the attributes of s below a given one, no others there, and that one. It is given up as soon as another is forced below.
fn least_with(list: &Implications, s: AttributeSet, attribute: u8) -> Option<AttributeSet>
    requires { attribute < list.now.n.value }
    ensures value { MatchOption result ((t : Set) → NextBranch list.now.n.value (said_by list.now) (set_in list.now.n.value s.bits) attribute t → ⊥) (λ m. LeastInBranch list.now.n.value (said_by list.now) (set_in list.now.n.value s.bits) attribute (set_in list.now.n.value m.bits)) }
    ensures bound { IfSome result (λ m. m.bits < 2 ^ list.now.n.value) }
{
    let below = s.below(attribute);
    let mut least = below.with(attribute);
    while let Some(more) = list.repair(least) {
        if more.below(attribute) != below {
            return None;
        }
        least = more;
    }
    Some(least)
}
