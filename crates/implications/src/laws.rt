// Laws of lists of implications.
ghost use Rattle.std.specs.Prelude.{ℕ, List};
ghost use Rattle.attributes.specs.Sets.{Set};
ghost use Rattle.contexts.specs.Contexts.{Implication};
ghost use Rattle.implications.specs.Implications.{Closure};
ghost use Rattle.implications.specs.Laws.{OneSetDecides, FollowsByClosure, OneClosure, MeetRespects};

// Contexts of one object decide what follows.
pub fn one_set_decides()
    ensures { (n : ℕ) (is : List Implication) (i : Implication) → OneSetDecides n is i }
{}

// What follows is what the closure of the premise contains.
pub fn follows_by_closure()
    ensures { (n : ℕ) (is : List Implication) (i : Implication) (r : Set) → Closure n is i.premise r → FollowsByClosure n is i r }
{}

// A set has one closure.
pub fn one_closure()
    ensures { (n : ℕ) (is : List Implication) → OneClosure n is }
{}

// What two sets share respects the implications that both respect.
pub fn meet_respects()
    ensures { (is : List Implication) → MeetRespects is }
{}
