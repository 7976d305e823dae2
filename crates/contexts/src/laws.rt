// Laws of common attributes.
ghost use Rattle.std.specs.Prelude.{ℕ};
ghost use Rattle.contexts.specs.Contexts.{Context, OfWidth};
ghost use Rattle.contexts.specs.Laws.{CommonLaws, HoldsByCommon};

// Common attributes are a closure.
pub fn common_laws()
    ensures { (n : ℕ) (t : Context) → OfWidth n t → CommonLaws n t }
{}

// An implication holds exactly if its conclusion is common to the objects with its premise.
pub fn holds_by_common()
    ensures { (n : ℕ) (t : Context) → HoldsByCommon n t }
{}
