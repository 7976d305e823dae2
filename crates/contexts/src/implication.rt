// Implications.
ghost use Rattle.std.specs.Prelude.{◌≡◌, ℕ, ◌^◌, ◌<◌, ◌++◌, not, length, Some, codes};
ghost use Rattle.attributes.specs.Numbers.{set_in};
ghost use Rattle.attributes.specs.Sets.{Set, complement};
ghost use Rattle.attributes.specs.Text.{written};
ghost use Rattle.contexts.specs.Contexts.{respects};
ghost use Rattle.contexts.specs.Values.{implication_at};

use attributes::{AttributeCount, AttributeSet};
use std::fmt;

// What has all attributes of the premise has all attributes of the conclusion. Like a set it does not carry how many attributes there are.
#[derive(Clone, Copy, PartialEq, Eq, Debug)]
pub struct Implication {
    pub premise: AttributeSet,
    pub conclusion: AttributeSet,
}

impl Implication {
    // What the implication says of the first n attributes.
    pub fn within(self, n: AttributeCount) -> Implication
        ensures value { implication_at n.value result ≡ implication_at n.value self }
        ensures premise { result.premise.bits < 2 ^ n.value }
        ensures conclusion { result.conclusion.bits < 2 ^ n.value }
    {
        Implication {
            premise: self.premise.within(n),
            conclusion: self.conclusion.within(n),
        }
    }

    // Whether a set lacks an attribute of the premise or has all of the conclusion.
    pub fn is_respected_by(self, s: AttributeSet) -> bool
        ensures { (n : ℕ) → self.premise.bits < 2 ^ n → self.conclusion.bits < 2 ^ n → result ≡ respects (set_in n s.bits) (implication_at n self) }
    {
        !self.premise.is_subset_of(s) || self.conclusion.is_subset_of(s)
    }

    // Whether a set has all of the premise and lacks something of the conclusion, told by what is outside the set: a walk over many implications
    // looks there once for each side. Nothing here uses it: the walk over a list makes these tests on the numbers as they stand.
    pub fn is_broken_outside(self, outside: AttributeSet) -> bool
        ensures { (n : ℕ) (s : Set) → length s ≡ n → outside.bits < 2 ^ n → set_in n outside.bits ≡ complement s → result ≡ not (respects s (implication_at n self)) }
    {
        !outside.meets(self.premise) && outside.meets(self.conclusion)
    }
}

// The premise, a colon and the conclusion.
impl fmt::Display for Implication {
    ghost output = { λ i. Some (written (set_in 16 i.premise.bits) ++ (codes ": " ++ written (set_in 16 i.conclusion.bits))) };

    fn fmt<W: fmt::Write>(&self, f: &mut fmt::Formatter<W>) -> fmt::Result {
        let premise = self.premise;
        let conclusion = self.conclusion;
        write!(f, "{premise}: {conclusion}")
    }
}
