// An attribute set.
ghost use Rattle.std.specs.Prelude.{◌≡◌, ℕ, ◌^◌, ◌<◌, ◌≤◌, true, not, set, Some, decimal, MatchOption, slice_set, refl};
ghost use Rattle.std.specs.Cmp.{on_po, on_total};
ghost use Rattle.std.specs.Ordering.{as_partial_cmp, on};
ghost use Rattle.std.specs.Fmt.{WritesOnOk};
ghost use Rattle.attributes.specs.Numbers.{number_of, set_in};
ghost use Rattle.attributes.specs.LecticOrder.{lectic_cmp, lectic_cmp_partial, lectic_cmp_ties, lectic_cmp_total};
ghost use Rattle.attributes.specs.Sets.{complement, everything, has, join, meet, missing, subset};
ghost use Rattle.attributes.specs.Text.{listed, written};

use crate::count::AttributeCount;
use std::cmp::Ordering;
use std::fmt;

// A set of the attributes 0 to 15: bit c says whether attribute c is in it. It does not carry how many attributes there are, though many contracts
// bound its bits by that number: each function of two sets would have to ask of its callers that both carry the same.
#[derive(Clone, Copy, PartialEq, Eq, Debug)]
pub struct AttributeSet {
    pub bits: u16,
}

impl AttributeSet {
    // The empty set.
    pub fn empty() -> AttributeSet
        ensures { result.bits ≡ 0 }
    {
        AttributeSet { bits: 0 }
    }

    // The attributes 0 to n - 1.
    pub fn everything(n: AttributeCount) -> AttributeSet
        ensures { result.bits ≡ number_of (everything n.value) }
    {
        AttributeSet {
            bits: (1u16 << n.get()) - 1,
        }
    }

    // The set of n attributes that a number of a row stands for; None if it has an attribute that is not there. It takes n, so it is no TryFrom.
    pub fn from_number(n: AttributeCount, number: u64) -> Option<AttributeSet>
        ensures { MatchOption result (2 ^ n.value ≤ number) (λ s. (s.bits ≡ number) × (number < 2 ^ n.value)) }
    {
        if number >= n.limit() {
            return None;
        }
        Some(AttributeSet {
            bits: number as u16,
        })
    }

    // What a number of a row says of the lowest n attributes. It drops the others, so it is no From, and neither is `of_number`.
    pub fn lowest(n: AttributeCount, number: u64) -> AttributeSet
        ensures value { set_in n.value result.bits ≡ set_in n.value number }
        ensures bound { result.bits < 2 ^ n.value }
    {
        AttributeSet {
            bits: (number & (n.limit() - 1)) as u16,
        }
    }

    // What a number of a row says of the attributes 0 to 15. It stands beside `lowest` for the innermost loop, where its mask costs nothing.
    pub fn of_number(number: u64) -> AttributeSet
        ensures { (n : ℕ) → n ≤ 16 → set_in n result.bits ≡ set_in n number }
    {
        AttributeSet {
            bits: (number & 65535) as u16,
        }
    }

    // Those of the set's attributes that are among the first n.
    pub fn within(self, n: AttributeCount) -> AttributeSet
        ensures value { set_in n.value result.bits ≡ set_in n.value self.bits }
        ensures bound { result.bits < 2 ^ n.value }
    {
        AttributeSet::lowest(n, u64::from(self))
    }

    pub fn is_subset_of(self, other: AttributeSet) -> bool
        ensures { (n : ℕ) → self.bits < 2 ^ n → result ≡ subset (set_in n self.bits) (set_in n other.bits) }
    {
        self.bits & other.bits == self.bits
    }

    // Those of n attributes that are not in the set.
    pub fn outside(self, n: AttributeCount) -> AttributeSet
        ensures value { set_in n.value result.bits ≡ complement (set_in n.value self.bits) }
        ensures bound { result.bits < 2 ^ n.value }
    {
        AttributeSet {
            bits: AttributeSet::everything(n).bits - self.within(n).bits,
        }
    }

    // Whether the sets have an attribute in common.
    pub fn meets(self, other: AttributeSet) -> bool
        ensures { (n : ℕ) → self.bits < 2 ^ n → result ≡ not (subset (set_in n self.bits) (complement (set_in n other.bits))) }
    {
        self.bits & other.bits != 0
    }

    // The attributes that both sets have.
    pub fn meet(self, other: AttributeSet) -> AttributeSet
        ensures value { (n : ℕ) → set_in n result.bits ≡ meet (set_in n self.bits) (set_in n other.bits) }
        ensures bound { (n : ℕ) → self.bits < 2 ^ n → result.bits < 2 ^ n }
    {
        AttributeSet {
            bits: self.bits & other.bits,
        }
    }

    // The attributes that one of the sets has.
    pub fn join(self, other: AttributeSet) -> AttributeSet
        ensures value { (n : ℕ) → set_in n result.bits ≡ join (set_in n self.bits) (set_in n other.bits) }
        ensures bound { (n : ℕ) → self.bits < 2 ^ n → other.bits < 2 ^ n → result.bits < 2 ^ n }
    {
        AttributeSet {
            bits: self.bits | other.bits,
        }
    }

    // The set with one attribute more; an attribute above 15 is not there to be added.
    pub fn with(self, attribute: u8) -> AttributeSet
        ensures value { (n : ℕ) → n ≤ 16 → set_in n result.bits ≡ slice_set (set_in n self.bits) attribute true }
        ensures bound { (n : ℕ) → self.bits < 2 ^ n → attribute < n → result.bits < 2 ^ n }
    {
        if attribute > 15 {
            return self;
        }
        AttributeSet {
            bits: self.bits | 1u16 << attribute,
        }
    }

    // Whether an attribute is in the set.
    pub fn contains(self, attribute: u8) -> bool
        ensures { (n : ℕ) → self.bits < 2 ^ n → result ≡ has (set_in n self.bits) attribute }
    {
        attribute < 16 && self.bits >> attribute & 1 == 1
    }

    // Those of the set's attributes that are below a given one.
    pub fn below(self, attribute: u8) -> AttributeSet
        ensures value { set_in attribute result.bits ≡ set_in attribute self.bits }
        ensures bound { result.bits < 2 ^ attribute }
    {
        if attribute > 15 {
            return self;
        }
        AttributeSet {
            bits: self.bits & ((1u16 << attribute) - 1),
        }
    }

    // How many of n attributes are not in the set.
    pub fn missing(self, n: AttributeCount) -> u32
        ensures { result ≡ missing (set_in n.value self.bits) }
    {
        let there = self.bits & AttributeSet::everything(n).bits;
        u32::from(n.get()) - there.count_ones()
    }
}

// The lectic order: of the lowest attribute in which two sets differ, the set that lacks it comes first.
impl Ord for AttributeSet {
    ghost cmp = { on (λ s. s.bits) lectic_cmp };

    ghost total = { on_total (λ s. s.bits) lectic_cmp_total };

    ghost matches_partial_cmp = { λ _ _. refl };

    ghost matches_eq = { λ s t. lectic_cmp_ties s.bits t.bits };

    fn cmp(&self, other: &AttributeSet) -> Ordering {
        let lowest = (self.bits ^ other.bits).trailing_zeros() as u8;
        if other.contains(lowest) {
            Ordering::Less
        } else if self.contains(lowest) {
            Ordering::Greater
        } else {
            Ordering::Equal
        }
    }
}

impl PartialOrd for AttributeSet {
    ghost partial_cmp = { on (λ s. s.bits) (as_partial_cmp lectic_cmp) };

    ghost laws = { on_po (λ s. s.bits) lectic_cmp_partial };

    fn partial_cmp(&self, other: &AttributeSet) -> Option<Ordering> {
        Some(self.cmp(other))
    }
}

// The number that stands for a set in a row.
impl From<AttributeSet> for u64 {
    ghost from_gives = { λ s number. number ≡ s.bits };

    fn from(s: AttributeSet) -> u64 {
        u64::from(s.bits)
    }
}

// The attributes in rising order with a space between, or a dash for the empty set.
impl fmt::Display for AttributeSet {
    ghost output = { λ s. Some (written (set_in 16 s.bits)) };

    fn fmt<W: fmt::Write>(&self, f: &mut fmt::Formatter<W>) -> fmt::Result {
        if self.bits == 0 {
            return f.write_str("-");
        }
        write_list(*self, f)
    }
}

fn write_list<W: fmt::Write>(s: AttributeSet, f: &mut fmt::Formatter<W>) -> fmt::Result
    ensures { WritesOnOk W.write_str_gives f.old result (listed true 0 (set_in 16 s.bits)) f.new }
{
    let mut between = "";
    for attribute in 0..16u8 {
        if s.contains(attribute) {
            if !between.is_empty() {
                f.write_str(between)?;
            }
            f.write_str(digits(attribute))?;
            between = " ";
        }
    }
    Ok(())
}

// The digits of each attribute's number: written out, since formatting a number costs more than all else that the programs do.
const DIGITS: [&str; 16] = [
    "0", "1", "2", "3", "4", "5", "6", "7", "8", "9", "10", "11", "12", "13", "14", "15",
];

fn digits(attribute: u8) -> &'static str
    requires { attribute < 16 }
    ensures { result.now ≡ decimal attribute }
{
    DIGITS[usize::from(attribute)]
}
