// Comparing two lists.
#![tactic(auto)]

ghost use Rattle.std.specs.Prelude.{◌≡◌, Some, Decides, MatchOption};
ghost use Rattle.std.specs.List.{AllByRecursion};
ghost use Rattle.implications.specs.Implications.{Follows};
ghost use Rattle.implications.specs.Values.{implications_in};
ghost use Rattle.comparisons.specs.Told.{comparison_text, difference_text};
ghost use Rattle.comparisons.specs.Compared.{Compared, Differs, SameClosed, is_same};

use attributes::{AttributeCount, AttributeSet};
use contexts::Implication;
use implications::Implications;
use std::fmt;

// An implication of one list that does not follow from the other, and the lectically first set that respects the other and breaks it.
#[derive(Clone, Copy, PartialEq, Eq, Debug)]
pub struct Difference {
    pub place: usize,
    pub implication: Implication,
    pub witness: AttributeSet,
}

// The implication, and the set that breaks it.
impl fmt::Display for Difference {
    ghost output = { λ d. Some (difference_text d) };

    fn fmt<W: fmt::Write>(&self, f: &mut fmt::Formatter<W>) -> fmt::Result {
        let implication = self.implication;
        let witness = self.witness;
        write!(f, "{implication}, as {witness}")
    }
}

// How two lists compare, with the first difference in each list's order. A case has a name: of two Options a caller would have to know which
// list each of them is about.
#[derive(Clone, Copy, PartialEq, Eq, Debug)]
pub enum Comparison {
    // Each list follows from the other.
    Same,
    // The second list follows from the first.
    OneSaysMore(Difference),
    // The first list follows from the second.
    OtherSaysMore(Difference),
    // Neither follows from the other: a difference in the first list, and one in the second.
    EachSaysMore(Difference, Difference),
}

// What is in one list and not in the other, a line for each.
impl fmt::Display for Comparison {
    ghost output = { λ r. Some (comparison_text r) };

    fn fmt<W: fmt::Write>(&self, f: &mut fmt::Formatter<W>) -> fmt::Result {
        match self {
            Comparison::Same => write!(f, "same"),
            Comparison::OneSaysMore(first) => write!(f, "not in the second: {first}"),
            Comparison::OtherSaysMore(second) => write!(f, "not in the first: {second}"),
            Comparison::EachSaysMore(first, second) => {
                write!(f, "not in the second: {first}\nnot in the first: {second}")
            }
        }
    }
}

// Compares two lists of implications, two numbers each. n stands once for both: two values of `Implications` could differ in it.
#[tactic(auto, using(crate::proofs::Closed::same_closed, crate::proofs::Closed::differs_there, crate::proofs::Closed::differs_back))]
pub fn compare(n: AttributeCount, one: &[u64], other: &[u64]) -> Comparison
    ensures told { Compared n.value (implications_in n.value one.now) (implications_in n.value other.now) result }
    ensures same { Decides (is_same result) (SameClosed n.value (implications_in n.value one.now) (implications_in n.value other.now)) }
{
    match (
        first_difference(n, one, other),
        first_difference(n, other, one),
    ) {
        (None, None) => Comparison::Same,
        (Some(first), None) => Comparison::OneSaysMore(first),
        (None, Some(second)) => Comparison::OtherSaysMore(second),
        (Some(first), Some(second)) => Comparison::EachSaysMore(first, second),
    }
}

// The first implication of one list that does not follow from the other. The sets reached from its premise grow towards its closure: once the
// conclusion is inside it follows, and if the closure lacks it the closure is the witness, since every other one contains it. Nested loops that are
// left by their label are a rule of the project.
pub fn first_difference(n: AttributeCount, one: &[u64], other: &[u64]) -> Option<Difference>
    ensures { MatchOption result (AllByRecursion (Follows n.value (implications_in n.value other.now)) (implications_in n.value one.now)) (Differs n.value (implications_in n.value one.now) (implications_in n.value other.now)) }
{
    let one = Implications { n, numbers: one };
    let other = Implications { n, numbers: other };
    let mut found = None;
    'implications: for (place, implication) in one.iter().enumerate() {
        let mut reached = implication.premise;
        while !implication.conclusion.is_subset_of(reached) {
            let Some(grown) = other.repair(reached) else {
                found = Some(Difference {
                    place,
                    implication,
                    witness: reached,
                });
                break 'implications;
            };
            reached = grown;
        }
    }
    found
}
