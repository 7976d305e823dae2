// What an answer that is taken does, and what became of each answer.
ghost use Rattle.std.specs.Prelude.{Some};
ghost use Rattle.replies.specs.Refusals.{outcome_text};

use crate::reply::Refusal;
use attributes::AttributeSet;
use contexts::Implication;
use std::fmt;

// What an answer that is taken does.
#[derive(Clone, Copy, PartialEq, Eq, Debug)]
pub enum Step {
    // The implication is confirmed.
    Confirm(Implication),
    // The object is named as an example.
    Name(AttributeSet),
}

// What was asked before an answer, and what became of the answer.
#[derive(Clone, Copy, PartialEq, Eq, Debug)]
pub struct Turn {
    pub asked: Option<Implication>,
    pub outcome: Result<Step, Refusal>,
}

// What became of the answer: `always`, `not` with the object, or the refusal.
impl fmt::Display for Turn {
    ghost output = { λ t. Some (outcome_text t.outcome) };

    fn fmt<W: fmt::Write>(&self, f: &mut fmt::Formatter<W>) -> fmt::Result {
        match self.outcome {
            Ok(Step::Confirm(_)) => write!(f, "always"),
            Ok(Step::Name(object)) => write!(f, "not {object}"),
            Err(refusal) => write!(f, "{refusal}"),
        }
    }
}
