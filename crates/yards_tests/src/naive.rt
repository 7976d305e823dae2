// The definitions, computed in the plainest way and with nothing of the library. A set is a number in which 2^c stands for attribute c, and a
// list of rules has two numbers for each rule.
use std::alloc::{AllocError, Global};

// What has all attributes of the premise has all attributes of the conclusion.
#[derive(Clone, Copy, Debug, PartialEq, Eq)]
pub struct Rule {
    pub premise: u64,
    pub conclusion: u64,
}

impl Rule {
    pub fn is_respected_by(self, s: u64) -> bool {
        !is_within(self.premise, s) || is_within(self.conclusion, s)
    }

    // Whether all objects respect it.
    pub fn holds(self, objects: &[u64]) -> bool {
        objects.iter().all(|object| self.is_respected_by(*object))
    }
}

// 2^n.
pub fn power(n: u32) -> u64 {
    1u64.wrapping_shl(n)
}

// The set of all n attributes.
pub fn everything(n: u32) -> u64 {
    power(n).wrapping_sub(1)
}

pub fn is_within(s: u64, other: u64) -> bool {
    s & other == s
}

// The set at a place in the lectic order of all sets of n attributes: of those that agree below an attribute, the sets without it come before
// the sets with it. So the place is the set read as a binary number, with attribute 0 as the first digit.
pub fn lectic(n: u32, place: u64) -> u64 {
    place.reverse_bits().wrapping_shr(64u32.wrapping_sub(n))
}

// Objects, each with some of n attributes.
#[derive(Clone, Copy)]
pub struct Yard<'a> {
    pub n: u32,
    pub objects: &'a [u64],
}

impl Yard<'_> {
    // What all objects with the attributes of s have in common; everything if there is no such object.
    pub fn shared(self, s: u64) -> u64 {
        let with_s = self.objects.iter().filter(|object| is_within(s, **object));
        with_s.fold(everything(self.n), |all, object| all & object)
    }

    // The Duquenne-Guigues base: for each pseudo-intent the rule from it to its closure, in lectic order. A pseudo-intent is a set that is not
    // closed and contains the closure of each pseudo-intent properly within it. Those come before it in lectic order, so one pass finds all.
    pub fn stem_base(self, heap: Global) -> Result<Vec<u64>, AllocError> {
        let mut base = Vec::new(heap);
        for place in 0..power(self.n) {
            let s = lectic(self.n, place);
            let closure = self.shared(s);
            if closure != s && contains_closures(base.as_slice(), s) {
                base.extend_from_slice(&[s, closure])?;
            }
        }
        Ok(base)
    }
}

// Whether a set contains the closure of each pseudo-intent properly within it. The base has the pseudo-intents, each with its closure.
fn contains_closures(base: &[u64], s: u64) -> bool {
    let (base, _) = base.as_chunks::<2>();
    base.iter().all(|&[pseudo, closure]| {
        !is_within(pseudo, s) || pseudo == s || is_within(closure, s)
    })
}

// What a dialogue about n attributes knows: the rules that were confirmed, and the objects that were named.
#[derive(Clone, Copy)]
pub struct Known<'a> {
    pub n: u32,
    pub rules: &'a [u64],
    pub examples: &'a [u64],
}

impl Known<'_> {
    // The place of the first rule that a set breaks.
    pub fn first_broken(self, s: u64) -> Option<usize> {
        let (rules, _) = self.rules.as_chunks::<2>();
        rules.iter().position(|&[premise, conclusion]| {
            let rule = Rule {
                premise,
                conclusion,
            };
            !rule.is_respected_by(s)
        })
    }

    // Whether each set that respects the rules respects this one.
    pub fn follows(self, rule: Rule) -> bool {
        (0..power(self.n)).all(|s| rule.is_respected_by(s) || self.first_broken(s).is_some())
    }

    // What is asked: about the lectically first set that respects the rules and lacks an attribute that the examples with it have in common.
    pub fn asked(self) -> Option<Rule> {
        let examples = Yard {
            n: self.n,
            objects: self.examples,
        };
        (0..power(self.n))
            .map(|place| {
                let premise = lectic(self.n, place);
                let conclusion = examples.shared(premise);
                Rule {
                    premise,
                    conclusion,
                }
            })
            .find(|rule| !is_within(rule.conclusion, rule.premise)
                && self.first_broken(rule.premise).is_none())
    }
}
