// Laws of the lectic order.
ghost use Rattle.std.specs.Prelude.{◌≡◌, ℕ, ◌^◌, ◌<◌};
ghost use Rattle.std.specs.Ordering.{partial_lt};
ghost use Rattle.attributes.specs.Numbers.{set_in};
ghost use Rattle.attributes.specs.Lectic.{precedes};
ghost use Rattle.attributes.specs.Laws.{LecticAgrees, OrderLaws};

use crate::set::AttributeSet;

// The lectic order of two sets and the enumeration of all sets agree.
pub fn lectic_agrees()
    ensures { (n : ℕ) → LecticAgrees n }
{}

// The lectic order is strict and total on the sets of n attributes, and a proper subset precedes.
pub fn order_laws()
    ensures { (n : ℕ) → OrderLaws n }
{}

// A set is less than another exactly if it precedes it, at each number of attributes that has room for both.
pub fn less_precedes()
    ensures { (n : ℕ) (s t : AttributeSet) → s.bits < 2 ^ n → t.bits < 2 ^ n
        → partial_lt ⟦<AttributeSet as PartialOrd>⟧.partial_cmp s t ≡ precedes (set_in n s.bits) (set_in n t.bits) }
{}
