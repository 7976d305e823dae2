// The implications of a list in turn.
ghost use Rattle.std.specs.Prelude.{length};
ghost use Rattle.std.specs.Iterator.{at_most};
ghost use Rattle.implications.specs.Places.{NextImplication};

use attributes::{AttributeCount, AttributeSet};
use contexts::Implication;

// The implications that are left, each read by the first n attributes.
#[derive(Drop)]
pub struct Iter<'a> {
    pub n: AttributeCount,
    pub rest: &'a [u64],
}

impl Iterator for Iter<'_> {
    type Item = Implication;

    ghost next_gives = { λ s r t. NextImplication s.n.value s.rest.now r t.n.value t.rest.now };

    ghost remaining = { λ s. at_most (length s.rest.now) };

    fn next(&mut self) -> Option<Implication> {
        let [premise, conclusion, rest @ ..] = self.rest else {
            return None;
        };
        self.rest = rest;
        Some(Implication {
            premise: AttributeSet::lowest(self.n, *premise),
            conclusion: AttributeSet::lowest(self.n, *conclusion),
        })
    }
}
