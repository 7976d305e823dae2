// What is asked next.
ghost use Rattle.std.specs.Prelude.{◌≡◌};
ghost use Rattle.std.specs.Option.{option_map};
ghost use Rattle.attributes.specs.Numbers.{set_in};
ghost use Rattle.contexts.specs.Values.{implication_at};
ghost use Rattle.exploration.specs.Answers.{premise_of};
ghost use Rattle.dialogues.specs.Dialogue.{question_from};
ghost use Rattle.exploration.specs.Row.{Bounded, known_of};

use crate::row::Row;
use attributes::{AttributeCount, AttributeSet};
use contexts::{Context, Implication};
use premises::first_asked_from;

// The question about the first open set that does not precede `from`.
pub(crate) fn ask_from(n: AttributeCount, row: &Row, from: AttributeSet) -> Option<Implication>
    ensures value { option_map (implication_at n.value) result ≡ question_from n.value (known_of n.value row.now.numbers.now) (set_in n.value from.bits) }
    ensures bound { Bounded n.value result }
{
    let examples = Context {
        n,
        objects: row.examples(),
    };
    first_asked_from(row.implications(), &examples, from)
}

// Where to look for what is asked next: no set before the premise of what was asked is open.
pub(crate) fn premise_of(asked: Option<Implication>) -> AttributeSet
    ensures { result ≡ premise_of asked }
{
    asked.map_or(AttributeSet::empty(), |implication| implication.premise)
}
