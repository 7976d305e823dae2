// Attribute exploration: the dialogue over lent memory.
#![tactic(auto)]

ghost use Rattle.std.specs.Prelude.{◌≡◌};
ghost use Rattle.exploration.specs.Answers.{judged_row, reply_after, row_after};
ghost use Rattle.exploration.specs.Row.{asked_of, opening, opened};

use beginning::{begin, check_opening};
use replies::{Refusal, Reply};
use row::refusal_of;
use standing::Standing;

mod answer;
mod asking;
mod beginning;
mod counts;
mod dialogue;
mod row;
mod standing;
mod theorems;

pub use dialogue::{Dialogue, NotHeld, take_all};
pub use row::ROW_LENGTH;
pub use theorems::answers_as_defined;

// Opens a row for an exploration of n attributes that knows nothing.
pub fn open(known: &mut [u64], n: u64) -> Result<(), Refusal>
    ensures value { result ≡ opening n known.old }
    ensures after { known.new ≡ opened n known.old }
{
    check_opening(known, n)?;
    begin(known, n);
    Ok(())
}

// What is asked next with what a row knows.
pub fn question(known: &[u64]) -> Reply
    ensures { result ≡ asked_of known.now }
{
    let standing = Standing::read(known);
    let Ok(Standing { asked, .. }) = standing else {
        return Reply::Refused(refusal_of(standing));
    };
    Reply::from(asked)
}

// Takes an answer to what is asked, or refuses it and leaves the row as it was. Replies with what is asked next.
pub fn take_answer(known: &mut [u64], answer: &[u64]) -> Reply
    ensures reply { result ≡ reply_after known.old (judged_row known.old answer.now) }
    ensures after { known.new ≡ row_after known.old (judged_row known.old answer.now) }
{
    let standing = Standing::read(known);
    let Ok(mut standing) = standing else {
        return Reply::Refused(refusal_of(standing));
    };
    let outcome = standing.take(known, answer).outcome;
    let Ok(_) = outcome else {
        return Reply::Refused(refusal_of(outcome));
    };
    Reply::from(standing.asked)
}
