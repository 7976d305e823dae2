// Laws of the first open set.
ghost use Rattle.std.specs.Prelude.{◌≡◌, ℕ, Bool, List, length};
ghost use Rattle.std.specs.List.{AllByRecursion};
ghost use Rattle.attributes.specs.Sets.{Set};
ghost use Rattle.contexts.specs.Contexts.{Implication};
ghost use Rattle.implications.specs.Implications.{Closure, Over};
ghost use Rattle.premises.specs.Forced.{closure};
ghost use Rattle.premises.specs.Laws.{FirstLaws, OpennessMonotone, SearchMayBegin};

// A search through the enumeration of all sets finds the lectically first that passes the test.
pub fn first_laws()
    ensures { (n : ℕ) (test : Set → Bool) → FirstLaws n test }
{}

// What the sets that respect a list have in common is the closure under the list.
pub fn closure_is_common()
    ensures { (n : ℕ) (is : List Implication) → AllByRecursion (Over n) is → (s : Set) → length s ≡ n → Closure n is s (closure n is s) }
{}

// A set that is not open stays so when implications or examples are added.
pub fn openness_monotone()
    ensures { OpennessMonotone }
{}

// So the next search may begin at the set that was open first.
pub fn search_may_begin()
    ensures { SearchMayBegin }
{}
