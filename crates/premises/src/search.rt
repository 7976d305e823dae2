// The search for the first open set. It follows the lectic order: of the sets that agree below an attribute those without it come first.
ghost use Rattle.std.specs.Prelude.{◌≡◌, ◌^◌, ◌<◌, ◌≤◌, true, false, not, ◌||◌, IfSome, MatchOption};
ghost use Rattle.std.specs.Option.{option_map};
ghost use Rattle.attributes.specs.Numbers.{set_in};
ghost use Rattle.attributes.specs.Sets.{Set, has, subset};
ghost use Rattle.implications.specs.Implications.{respects_all};
ghost use Rattle.implications.specs.Lists.{said_by};
ghost use Rattle.premises.specs.Branches.{ClosedWith, FoundInBranch};
ghost use Rattle.premises.specs.Open.{is_open};
ghost use Rattle.premises.specs.Respecting.{Agree};

use crate::forces::Forces;
use attributes::AttributeSet;
use implications::Implications;

// What a search is over.
#[derive(Drop)]
pub struct Search<'a, 'b, F> {
    pub confirmed: Implications<'a>,
    pub forces: &'b F,
    pub from: AttributeSet,
}

impl<F: Forces> Search<'_, '_, F> {
    // Whether a set that respects what is confirmed lacks an attribute that it forces.
    fn lacks_forced(&self, s: AttributeSet) -> bool
        requires { F.Forces.width self.now.forces.now ≡ self.now.confirmed.n.value }
        ensures { result ≡ not (subset (F.Forces.forced self.now.forces.now (set_in self.now.confirmed.n.value s.bits)) (set_in self.now.confirmed.n.value s.bits)) }
    {
        !self.forces.forced_by(s).is_subset_of(s)
    }

    // Whether sets that have an attribute, and agree with `from` below it unless the branch is past it, do not precede `from`.
    fn is_beyond(&self, attribute: u8, past: bool) -> bool
        requires { self.now.from.bits < 2 ^ self.now.confirmed.n.value }
        ensures { result ≡ (past || not (has (set_in self.now.confirmed.n.value self.now.from.bits) attribute)) }
    {
        past || !self.from.contains(attribute)
    }

    // The closure of s with an attribute added; None if it gains an attribute below that one. It is given up as soon as one is gained.
    fn closed_with(&self, attribute: u8, s: AttributeSet) -> Option<AttributeSet>
        requires there { attribute ≤ self.now.confirmed.n.value }
        ensures cases { MatchOption result ((m : Set) → ClosedWith self.now.confirmed.n.value (said_by self.now.confirmed) (set_in self.now.confirmed.n.value s.bits) attribute m → ⊥) (λ m. ClosedWith self.now.confirmed.n.value (said_by self.now.confirmed) (set_in self.now.confirmed.n.value s.bits) attribute (set_in self.now.confirmed.n.value m.bits)) }
        ensures bound { IfSome result (λ m. m.bits < 2 ^ self.now.confirmed.n.value) }
    {
        let mut with = s.with(attribute).within(self.confirmed.n);
        while let Some(more) = self.confirmed.repair(with) {
            if more.below(attribute) != s.below(attribute) {
                return None;
            }
            with = more;
        }
        Some(with)
    }

    // The first open set that agrees with s below an attribute and contains s. What does not respect the implications is not visited.
    pub(crate) fn first_in_branch(
        &self,
        attribute: u8,
        s: AttributeSet,
        past: bool,
    ) -> Option<AttributeSet>
        requires width { F.Forces.width self.now.forces.now ≡ self.now.confirmed.n.value }
        requires from { self.now.from.bits < 2 ^ self.now.confirmed.n.value }
        requires bound { s.bits < 2 ^ self.now.confirmed.n.value }
        requires there { attribute ≤ self.now.confirmed.n.value }
        requires respected { respects_all (set_in self.now.confirmed.n.value s.bits) (said_by self.now.confirmed) ≡ true }
        requires even { past ≡ false → Agree attribute (set_in self.now.confirmed.n.value s.bits) (set_in self.now.confirmed.n.value self.now.from.bits) }
        ensures found { FoundInBranch self.now.confirmed.n.value attribute (set_in self.now.confirmed.n.value s.bits) (set_in self.now.confirmed.n.value self.now.from.bits) past (is_open (F.Forces.forced self.now.forces.now) (said_by self.now.confirmed)) (option_map (λ q. set_in self.now.confirmed.n.value q.bits) result) }
        ensures bound { IfSome result (λ q. q.bits < 2 ^ self.now.confirmed.n.value) }
    {
        if attribute == self.confirmed.n.get() {
            if self.lacks_forced(s) {
                return Some(s);
            }
            return None;
        }
        let beyond = self.is_beyond(attribute, past);
        if s.contains(attribute) {
            return self.first_in_branch(attribute + 1, s, beyond);
        }
        if beyond {
            let without = self.first_in_branch(attribute + 1, s, past);
            if without.is_some() {
                return without;
            }
        }
        let Some(with) = self.closed_with(attribute, s) else {
            return None;
        };
        self.first_in_branch(attribute + 1, with, beyond)
    }
}
