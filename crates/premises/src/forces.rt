// What a set forces: by examples, or by a list of implications.
ghost use Rattle.std.specs.Prelude.{◌≡◌, ℕ, ◌^◌, ◌<◌};
ghost use Rattle.attributes.specs.Numbers.{set_in};
ghost use Rattle.attributes.specs.Sets.{Set};
ghost use Rattle.contexts.specs.Contexts.{common};
ghost use Rattle.contexts.specs.Objects.{objects_of};
ghost use Rattle.implications.specs.Lists.{said_by};
ghost use Rattle.premises.specs.Forced.{closure};

use attributes::{AttributeCount, AttributeSet};
use contexts::Context;
use implications::Implications;

// What says which attributes a set forces.
pub trait Forces {
    // how many attributes there are
    ghost width: { Self → ℕ };

    // the attributes that a set forces
    ghost forced: { Self → Set → Set };

    fn count(&self) -> AttributeCount
        ensures { result.value ≡ width self.now };

    fn forced_by(&self, s: AttributeSet) -> AttributeSet
        ensures value { set_in (width self.now) result.bits ≡ forced self.now (set_in (width self.now) s.bits) }
        ensures bound { result.bits < 2 ^ width self.now };
}

// A set forces what the objects that contain it have in common.
impl Forces for Context<'_> {
    ghost width = { λ t. t.n.value };

    ghost forced = { λ t s. common t.n.value (objects_of t) s };

    fn count(&self) -> AttributeCount {
        self.n
    }

    fn forced_by(&self, s: AttributeSet) -> AttributeSet {
        self.common(s)
    }
}

// A set forces its closure.
impl Forces for Implications<'_> {
    ghost width = { λ l. l.n.value };

    ghost forced = { λ l s. closure l.n.value (said_by l) s };

    fn count(&self) -> AttributeCount {
        self.n
    }

    fn forced_by(&self, s: AttributeSet) -> AttributeSet {
        self.close(s)
    }
}
