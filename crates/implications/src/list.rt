// Lists of implications.
ghost use Rattle.std.specs.Prelude.{◌≡◌, ◌/◌, ◌^◌, ◌<◌, ◌≤◌, true, length, Some, IfSome, Decides, MatchOption, slice_index_or};
ghost use Rattle.attributes.specs.Numbers.{set_in};
ghost use Rattle.contexts.specs.Values.{implication_at};
ghost use Rattle.implications.specs.Implications.{respects_all, Closure, Follows};
ghost use Rattle.implications.specs.Places.{no_implication, FirstBroken, IsFirstBroken, Repaired, Passed};
ghost use Rattle.implications.specs.Text.{lines};

use crate::iter::Iter;
use attributes::{AttributeCount, AttributeSet};
use contexts::Implication;
use std::fmt;

// How many attributes there are, and the numbers of a lent row: a premise and a conclusion in turn. A last number without another is no
// implication.
#[derive(Clone, Copy)]
pub struct Implications<'a> {
    pub n: AttributeCount,
    pub numbers: &'a [u64],
}

impl<'a> Implications<'a> {
    ghost use Rattle.implications.specs.Lists.{said_by};

    // The implications in turn.
    pub fn iter(&self) -> Iter<'a>
        ensures n { result.n ≡ self.now.n }
        ensures rest { result.rest.now ≡ self.now.numbers.now }
    {
        Iter {
            n: self.n,
            rest: self.numbers,
        }
    }

    // The place of the first implication that a set breaks. This is the walk of every closing and search, so the numbers are tested as they stand: what
    // is outside the set is among the n attributes. To read each implication by them, as `Iter` does, made closing take up to 2.6 times as long, and
    // by `position` over the row's pairs this alone took up to 1.6 times as long.
    pub fn first_broken(&self, s: AttributeSet) -> Option<usize>
        ensures { MatchOption result (respects_all (set_in self.now.n.value s.bits) (said_by self.now) ≡ true) (FirstBroken (said_by self.now) (set_in self.now.n.value s.bits)) }
    {
        let outside = s.outside(self.n);
        for place in 0..self.numbers.len() / 2 {
            if !outside.meets(AttributeSet::of_number(self.numbers[2 * place]))
                && outside.meets(AttributeSet::of_number(self.numbers[2 * place + 1]))
            {
                return Some(place);
            }
        }
        None
    }

    // The closure of a set: the least set that contains it and respects all implications.
    pub fn close(&self, s: AttributeSet) -> AttributeSet
        ensures value { Closure self.now.n.value (said_by self.now) (set_in self.now.n.value s.bits) (set_in self.now.n.value result.bits) }
        ensures bound { result.bits < 2 ^ self.now.n.value }
    {
        self.grow(s.within(self.n))
    }

    // Whether an implication follows from the list.
    pub fn follows(&self, implication: Implication) -> bool
        ensures { Decides result (Follows self.now.n.value (said_by self.now) (implication_at self.now.n.value implication)) }
    {
        let closure = self.close(implication.premise);
        implication.conclusion.within(self.n).is_subset_of(closure)
    }

    // Repairs what is broken until nothing is, by recursion, which is a rule of the project. Each repair adds an attribute that was missing.
    fn grow(&self, s: AttributeSet) -> AttributeSet
        requires { s.bits < 2 ^ self.now.n.value }
        ensures value { Closure self.now.n.value (said_by self.now) (set_in self.now.n.value s.bits) (set_in self.now.n.value result.bits) }
        ensures bound { result.bits < 2 ^ self.now.n.value }
    {
        let Some(more) = self.repair(s) else {
            return s;
        };
        self.grow(more)
    }

    // The set with the conclusion of the first implication that it breaks; None if it breaks none.
    pub fn repair(&self, s: AttributeSet) -> Option<AttributeSet>
        ensures value { MatchOption result (respects_all (set_in self.now.n.value s.bits) (said_by self.now) ≡ true) (λ g. Repaired (said_by self.now) (set_in self.now.n.value s.bits) (set_in self.now.n.value g.bits)) }
        ensures bound { IfSome result (λ g. g.bits < 2 ^ self.now.n.value) }
    {
        let s = s.within(self.n);
        let broken = self.broken(s)?;
        Some(s.join(broken.conclusion))
    }

    // That implication itself.
    fn broken(&self, s: AttributeSet) -> Option<Implication>
        ensures { MatchOption result (respects_all (set_in self.now.n.value s.bits) (said_by self.now) ≡ true) (IsFirstBroken self.now.n.value (said_by self.now) (set_in self.now.n.value s.bits)) }
    {
        let place = self.first_broken(s)?;
        Some(self.implication_at(place))
    }

    // The implication at a place that the list has. `nth` would test the place again, and the walk that found it would have to count for that.
    fn implication_at(&self, place: usize) -> Implication
        requires { place < length self.now.numbers.now / 2 }
        ensures value { implication_at self.now.n.value result ≡ slice_index_or (said_by self.now) place no_implication }
        ensures premise { result.premise.bits < 2 ^ self.now.n.value }
        ensures conclusion { result.conclusion.bits < 2 ^ self.now.n.value }
    {
        Implication {
            premise: AttributeSet::lowest(self.n, self.numbers[2 * place]),
            conclusion: AttributeSet::lowest(self.n, self.numbers[2 * place + 1]),
        }
    }

    // Adds the conclusions of the implications whose premises are inside, once in the list's order. Nothing here uses it.
    pub fn pass(&self, s: AttributeSet) -> AttributeSet
        ensures value { Passed self.now.n.value (said_by self.now) (set_in self.now.n.value s.bits) (set_in self.now.n.value result.bits) }
        ensures bound { result.bits < 2 ^ self.now.n.value }
    {
        let mut grown = s.within(self.n);
        for implication in self.iter() {
            if implication.premise.is_subset_of(grown) {
                grown = grown.join(implication.conclusion);
            }
        }
        grown
    }

    // The implication at a place of the list; None past its end.
    pub fn nth(&self, place: usize) -> Option<Implication>
        ensures value { MatchOption result (length self.now.numbers.now / 2 ≤ place) (λ i. (place < length self.now.numbers.now / 2) × (implication_at self.now.n.value i ≡ slice_index_or (said_by self.now) place no_implication)) }
        ensures bound { IfSome result (λ i. (i.premise.bits < 2 ^ self.now.n.value) × (i.conclusion.bits < 2 ^ self.now.n.value)) }
    {
        let (pairs, _) = self.numbers.as_chunks::<2>();
        let pair = pairs.get(place)?;
        Iter {
            n: self.n,
            rest: pair.as_slice(),
        }
        .next()
    }
}

// A line for each implication.
impl fmt::Display for Implications<'_> {
    ghost use Rattle.std.specs.Prelude.{Some};
    ghost use Rattle.implications.specs.Lists.{said_by};

    ghost output = { λ l. Some (lines (said_by l)) };

    fn fmt<W: fmt::Write>(&self, f: &mut fmt::Formatter<W>) -> fmt::Result {
        for line in self.iter() {
            writeln!(f, "{line}")?;
        }
        Ok(())
    }
}
