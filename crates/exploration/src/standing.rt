// Where an exploration stands: what its row says, and what is asked next.
ghost use Rattle.std.specs.Prelude.{◌≡◌, Some, MatchResult};
ghost use Rattle.std.proofs.Props.{props};
ghost use Rattle.implications.specs.Values.{implications_in};
ghost use Rattle.exploration.specs.Row.{Bounded, asked_in, row_fault};
ghost use Rattle.exploration.specs.Answers.{checked_answer, judged_given, judged_row, row_after};

use crate::answer::{Answer, check_answer, check_object};
use crate::asking::{ask_from, premise_of};
use crate::counts::Counts;
use crate::row::{Row, refusal_of};
use attributes::{AttributeCount, AttributeSet};
use contexts::Implication;
use implications::Implications;
use replies::{Refusal, Step, Turn};

// How many attributes and entries there are, and what is asked. The row stands beside it: it is lent to be read for a question, and to be written
// for an answer.
#[derive(Clone, Copy)]
pub struct Standing {
    pub n: AttributeCount,
    pub counts: Counts,
    pub asked: Option<Implication>,
    ghost bound: { Bounded n.value asked } by { Prim.hlevel props },
}

impl Standing {
    ghost use Rattle.exploration.specs.Standings.{Stands};

    // Checks a row and finds what is asked, from the first set on.
    pub(crate) fn read(known: &[u64]) -> Result<Standing, Refusal>
        ensures { MatchResult result (Stands known.now) (λ fault. row_fault known.now ≡ Some fault) }
    {
        let row = Row::check(known);
        let Ok(row) = row else {
            return Err(refusal_of(row));
        };
        let n = row.attributes();
        let Ok(n) = n else {
            return Err(refusal_of(n));
        };
        let counts = row.counts;
        let asked = ask_from(n, &row, AttributeSet::empty());
        Ok(Standing { n, counts, asked })
    }

    // Takes or refuses one answer: tells what was asked before it and what became of it, and then stands where the row does. What is asked
    // next is sought from the premise just asked about on.
    pub(crate) fn take(&mut self, known: &mut [u64], answer: &[u64]) -> Turn
        requires { Stands known.old self.old }
        ensures after { known.new ≡ row_after known.old (judged_row known.old answer.now) }
        ensures stands { Stands known.new self.new }
        ensures asked { result.asked ≡ asked_in known.old }
        ensures outcome { result.outcome ≡ judged_row known.old answer.now }
    {
        let asked = self.asked;
        let row = Row {
            numbers: known,
            counts: self.counts,
        };
        let outcome = self.judge(row.implications(), answer);
        let turn = Turn { asked, outcome };
        let Ok(step) = outcome else {
            return turn;
        };
        self.counts.add(known, step);
        let row = Row {
            numbers: known,
            counts: self.counts,
        };
        self.asked = ask_from(self.n, &row, premise_of(asked));
        turn
    }

    // What an answer of two numbers does to what is asked, or the first refusal that applies.
    fn judge(&self, confirmed: &[u64], answer: &[u64]) -> Result<Step, Refusal>
        ensures { result ≡ judged_given self.now.n.value (implications_in self.now.n.value confirmed.now) self.now.counts self.now.asked (checked_answer self.now.n.value answer.now) }
    {
        let answer = check_answer(self.n, answer);
        let Ok(answer) = answer else {
            return Err(refusal_of(answer));
        };
        let Some(asked) = self.asked else {
            return Err(Refusal::NothingAsked);
        };
        match answer {
            Answer::Always => self.counts.check_room(Step::Confirm(asked)),
            Answer::Object(object) => {
                let confirmed = Implications {
                    n: self.n,
                    numbers: confirmed,
                };
                let object = check_object(&confirmed, asked, object);
                let Ok(object) = object else {
                    return Err(refusal_of(object));
                };
                self.counts.check_room(Step::Name(object))
            }
        }
    }
}
