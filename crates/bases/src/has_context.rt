// What a base is written of.
ghost use Rattle.std.specs.Prelude.{◌≤◌, refl};
ghost use Rattle.contexts.proofs.Walks.{objects_width};
ghost use Rattle.contexts.specs.Contexts.{Context as Objects};
ghost use Rattle.contexts.specs.Objects.{objects_of};
ghost use Rattle.implications.specs.Lists.{said_by};
ghost use Rattle.premises.proofs.Closures.{respecting_width};
ghost use Rattle.premises.specs.Forced.{respecting};
ghost use Rattle.bases.specs.Bases.{CommonTo};

use contexts::Context;
use implications::Implications;
use premises::Forces;

// What forces what the objects of a context have in common.
pub trait HasContext: Forces {
    // the objects
    ghost objects: { Self → Objects };

    // what a set forces is what the objects with its attributes have in common
    ghost common: { (x : Self) → CommonTo (Self.width x) (Self.forced x) (objects x) };

    // there are no more attributes than a count can say
    ghost few: { (x : Self) → Self.width x ≤ 12 };
}

impl HasContext for Context<'_> {
    ghost objects = { λ t. objects_of t };

    ghost common = { λ t. (objects_width t.n.value t.objects.now, refl) };

    ghost few = { λ t. t.n.few };
}

// The sets that respect a list have in common with a set's attributes its closure.
impl HasContext for Implications<'_> {
    ghost objects = { λ l. respecting l.n.value (said_by l) };

    ghost common = { λ l. (respecting_width l.n.value (said_by l), refl) };

    ghost few = { λ l. l.n.few };
}
