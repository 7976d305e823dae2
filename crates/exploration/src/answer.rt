// Answers, and the checks that an answer has to pass.
ghost use Rattle.std.specs.Prelude.{◌≡◌, ◌^◌, ◌<◌, ltb, if◌then◌else◌, Ok, Err, nat_eq};
ghost use Rattle.implications.specs.Lists.{said_by};
ghost use Rattle.exploration.specs.Answers.{checked_answer, checked_object};
ghost use Rattle.exploration.specs.declared.answer.Answer.TheVariants.{Always, Object};
ghost use Rattle.replies.specs.declared.reply.Refusal.TheVariants.{AlwaysWithNumber, UnknownAttributeNamed};

use attributes::{AttributeCount, AttributeSet};
use contexts::Implication;
use implications::Implications;
use replies::Refusal;

// What is said to a question.
#[derive(Clone, Copy, PartialEq, Eq, Debug)]
pub enum Answer {
    // All objects with the premise have the conclusion.
    Always,
    // This object has the premise and not all of the conclusion.
    Object(AttributeSet),
}

// Reads an answer of two numbers: 0 and 0 for always, or 1 and the object.
pub(crate) fn check_answer(n: AttributeCount, answer: &[u64]) -> Result<Answer, Refusal>
    ensures { result ≡ checked_answer n.value answer.now }
{
    let [kind, number, ..] = answer else {
        return Err(Refusal::AnswerCutShort(answer.len()));
    };
    match *kind {
        0 => check_always(*number),
        1 => check_named(n, *number),
        _ => Err(Refusal::UnknownKind),
    }
}

fn check_always(number: u64) -> Result<Answer, Refusal>
    ensures { result ≡ (if nat_eq number 0 then Ok Always else Err AlwaysWithNumber) }
{
    if number != 0 {
        return Err(Refusal::AlwaysWithNumber);
    }
    Ok(Answer::Always)
}

fn check_named(n: AttributeCount, number: u64) -> Result<Answer, Refusal>
    ensures { result ≡ (if ltb number (2 ^ n.value) then Ok (Object (record { bits = number })) else Err UnknownAttributeNamed) }
{
    let Some(object) = AttributeSet::from_number(n, number) else {
        return Err(Refusal::UnknownAttributeNamed);
    };
    Ok(Answer::Object(object))
}

// An object must break what is asked and respect what is confirmed.
pub(crate) fn check_object(
    confirmed: &Implications,
    asked: Implication,
    object: AttributeSet,
) -> Result<AttributeSet, Refusal>
    requires premise { asked.premise.bits < 2 ^ confirmed.now.n.value }
    requires conclusion { asked.conclusion.bits < 2 ^ confirmed.now.n.value }
    ensures { result ≡ checked_object confirmed.now.n.value (said_by confirmed.now) asked object }
{
    if asked.is_respected_by(object) {
        return Err(Refusal::NotACounterexample(object));
    }
    if let Some(place) = confirmed.first_broken(object) {
        return Err(Refusal::BreaksConfirmed(place));
    }
    Ok(object)
}
