// A whole dialogue from nothing known: a list of answers, and what is asked looked for once for each.
ghost use Rattle.std.specs.Prelude.{◌≡◌};
ghost use Rattle.exploration.specs.Turns.{DialogueHeld, OpenedFirst, PromiseKept, told};
ghost use Rattle.exploration.specs.declared.dialogue.NotHeld.TheVariants.{OutOfMemory, Refused};

use crate::beginning::{begin, check_opening};
use crate::row::refusal_of;
use crate::standing::Standing;
use contexts::Implication;
use replies::{Refusal, Turn};
use std::alloc::{AllocError, Global};

// What became of each answer, and what is asked at the end.
#[derive(Drop)]
pub struct Dialogue {
    pub turns: Vec<Turn>,
    pub asked: Option<Implication>,
}

// Why a dialogue was not held. The row is then as it was.
#[derive(Clone, Copy, PartialEq, Eq, Debug)]
pub enum NotHeld {
    Refused(Refusal),
    OutOfMemory,
}

impl From<Refusal> for NotHeld {
    ghost from_gives = { λ refusal reason. reason ≡ Refused refusal };

    fn from(refusal: Refusal) -> NotHeld {
        NotHeld::Refused(refusal)
    }
}

impl From<AllocError> for NotHeld {
    ghost from_gives = { λ _ reason. reason ≡ OutOfMemory };

    fn from(_error: AllocError) -> NotHeld {
        NotHeld::OutOfMemory
    }
}

// Holds a dialogue from nothing known: opens the row, takes or refuses the answers in turn, and tells what became of each. The answers are lent as
// numbers, two for each, which is a rule of the project. If they are truthful for some yard, none is refused, and once nothing is asked any more the
// row knows the least list of that yard.
pub fn take_all(
    heap: Global,
    known: &mut [u64],
    n: u64,
    answers: &[u64],
) -> Result<Dialogue, NotHeld>
    ensures held { DialogueHeld n known.old answers.now (told result) known.new }
    ensures memory { OpenedFirst n known.old (told result) }
    ensures promise { PromiseKept n answers.now (told result) known.new }
{
    take_in_turn(heap, known, n, answers)
}

// `take_all` without its promise, which follows from what this says. A function with all three clauses would owe the promise at each return.
fn take_in_turn(
    heap: Global,
    known: &mut [u64],
    n: u64,
    answers: &[u64],
) -> Result<Dialogue, NotHeld>
    ensures held { DialogueHeld n known.old answers.now (told result) known.new }
    ensures memory { OpenedFirst n known.old (told result) }
{
    check_opening(known, n)?;
    let mut turns = Vec::with_capacity(heap, answers.len().div_ceil(2))?;
    begin(known, n);
    let standing = Standing::read(known);
    let Ok(mut standing) = standing else {
        return Err(NotHeld::Refused(refusal_of(standing)));
    };
    for answer in answers.chunks(2) {
        turns.push_reserved(standing.take(known, answer));
    }
    Ok(Dialogue {
        turns,
        asked: standing.asked,
    })
}
