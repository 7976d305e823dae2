// Contexts: what their objects have in common, and whether implications hold for them.
ghost use Rattle.std.specs.Prelude.{◌≡◌, ℕ, ◌^◌, ◌<◌, ◌≤◌, true, length, MatchOption};
ghost use Rattle.attributes.specs.Numbers.{set_in};
ghost use Rattle.contexts.specs.Contexts.{common, holds};
ghost use Rattle.contexts.specs.Places.{FirstBreaking, LastWith, NoneWith};
ghost use Rattle.contexts.specs.Values.{implication_at, objects_in};

use crate::implication::Implication;
use attributes::{AttributeCount, AttributeSet};

// How many attributes there are, and the objects, each a number of a lent row.
#[derive(Clone, Copy)]
pub struct Context<'a> {
    pub n: AttributeCount,
    pub objects: &'a [u64],
}

impl Context<'_> {
    ghost use Rattle.contexts.specs.Objects.{objects_of};

    // The attributes that all objects with the attributes of s have in common; all n if there is no such object. Once s alone is left no object
    // can take more away. The last object goes first: in an exploration it was named last, and tends to have what is asked about next.
    pub fn common(&self, s: AttributeSet) -> AttributeSet
        ensures value { set_in self.now.n.value result.bits ≡ common self.now.n.value (objects_of self.now) (set_in self.now.n.value s.bits) }
        ensures bound { result.bits < 2 ^ self.now.n.value }
    {
        let asked = s.within(self.n);
        let mut shared = AttributeSet::everything(self.n);
        let mut end = self.objects.len();
        while let Some(place) = last_with(self.objects, end, asked) {
            shared = AttributeSet::lowest(self.n, self.objects[place]).meet(shared);
            if shared == asked {
                return asked;
            }
            end = place;
        }
        shared
    }

    // The place of the first object that breaks an implication.
    pub fn first_counterexample(&self, implication: Implication) -> Option<usize>
        ensures { MatchOption result (holds (objects_of self.now) (implication_at self.now.n.value implication) ≡ true) (FirstBreaking (objects_of self.now) (implication_at self.now.n.value implication)) }
    {
        let asked = implication.within(self.n);
        self.objects.iter().position(|number| {
            let object = AttributeSet::lowest(self.n, *number);
            !asked.is_respected_by(object)
        })
    }

    // Whether all objects respect an implication.
    pub fn holds(&self, implication: Implication) -> bool
        ensures { result ≡ holds (objects_of self.now) (implication_at self.now.n.value implication) }
    {
        self.first_counterexample(implication).is_none()
    }
}

// The place of the last object before `end` that has all attributes of a set. It counts by hand, two objects to a turn, since it is the innermost loop
// of all: with a `for` over the reversed objects, or with slices cut from the back, `stembase` took up to 1.62 times the instructions of the plain
// program, where 1.5 is the bar.
fn last_with(objects: &[u64], end: usize, s: AttributeSet) -> Option<usize>
    requires { end ≤ length objects.now }
    ensures { (n : ℕ) → n ≤ 16 → s.bits < 2 ^ n → MatchOption result (NoneWith (objects_in n objects.now) (set_in n s.bits) 0 end) (LastWith (objects_in n objects.now) (set_in n s.bits) end) }
{
    let mut place = end;
    while place > 1 {
        if s.is_subset_of(AttributeSet::of_number(objects[place - 1])) {
            return Some(place - 1);
        }
        if s.is_subset_of(AttributeSet::of_number(objects[place - 2])) {
            return Some(place - 2);
        }
        place -= 2;
    }
    if place == 1 && s.is_subset_of(AttributeSet::of_number(objects[0])) {
        return Some(0);
    }
    None
}
