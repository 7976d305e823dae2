// What the entries reply.
ghost use Rattle.std.specs.Prelude.{◌≡◌, Some};
ghost use Rattle.replies.specs.Refusals.{refusal_number, refusal_place, refusal_text, reply_text, reply_with};

use attributes::AttributeSet;
use contexts::Implication;
use std::fmt;

// Why an entry refused. What is known is then as it was.
#[derive(Clone, Copy, PartialEq, Eq, Debug)]
pub enum Refusal {
    // The lent row has this length, and that is too short.
    RowTooShort(usize),
    // The row counts more than 4,096 implications.
    TooManyImplications,
    // The row counts more than 4,096 examples.
    TooManyExamples,
    // There are more than twelve attributes.
    TooManyAttributes,
    // The number at this place of the row has an attribute that is not there.
    UnknownAttribute(usize),
    // The answer has this length, and that is too short.
    AnswerCutShort(usize),
    // The answer is neither "always" nor an object.
    UnknownKind,
    // The object has an attribute that is not there.
    UnknownAttributeNamed,
    // The answer is "always" with another number than 0.
    AlwaysWithNumber,
    // Nothing is asked any more.
    NothingAsked,
    // The object, which is told, does not break the implication asked about.
    NotACounterexample(AttributeSet),
    // The object breaks the confirmed implication at this place.
    BreaksConfirmed(usize),
    // There is no room for another implication.
    NoRoomForImplication,
    // There is no room for another example.
    NoRoomForExample,
}

impl Refusal {
    // The number by which the refusal is told: a rule of the project, like the place.
    pub fn number(self) -> u64
        ensures { result ≡ refusal_number self }
    {
        match self {
            Refusal::RowTooShort(_) | Refusal::TooManyImplications | Refusal::TooManyExamples => 1,
            Refusal::TooManyAttributes | Refusal::UnknownAttribute(_) => 2,
            Refusal::AnswerCutShort(_)
            | Refusal::UnknownKind
            | Refusal::UnknownAttributeNamed
            | Refusal::AlwaysWithNumber => 3,
            Refusal::NothingAsked => 4,
            Refusal::NotACounterexample(_) => 5,
            Refusal::BreaksConfirmed(_) => 6,
            Refusal::NoRoomForImplication | Refusal::NoRoomForExample => 7,
        }
    }

    // The place that is told with it.
    pub fn place(self) -> u64
        ensures { result ≡ refusal_place self }
    {
        match self {
            Refusal::RowTooShort(length) => length as u64,
            Refusal::TooManyImplications => 1,
            Refusal::TooManyExamples => 2,
            Refusal::TooManyAttributes => 0,
            Refusal::UnknownAttribute(place) => place as u64,
            Refusal::AnswerCutShort(length) => length as u64,
            Refusal::UnknownKind => 0,
            Refusal::UnknownAttributeNamed => 1,
            Refusal::AlwaysWithNumber => 1,
            Refusal::NothingAsked => 0,
            Refusal::NotACounterexample(object) => u64::from(object),
            Refusal::BreaksConfirmed(place) => place as u64,
            Refusal::NoRoomForImplication => 1,
            Refusal::NoRoomForExample => 2,
        }
    }
}

// The number and the place by which a refusal is told.
impl fmt::Display for Refusal {
    ghost output = { λ r. Some (refusal_text r) };

    fn fmt<W: fmt::Write>(&self, f: &mut fmt::Formatter<W>) -> fmt::Result {
        let number = self.number();
        let place = self.place();
        write!(f, "refused {number} at {place}")
    }
}

// A question, the end, or a refusal: an enum of these three is a rule of the project.
#[derive(Clone, Copy, PartialEq, Eq, Debug)]
pub enum Reply {
    // Have all objects with the premise also the conclusion?
    Question(Implication),
    // Nothing is left to ask.
    Finished,
    Refused(Refusal),
}

// What is asked, as a reply.
impl From<Option<Implication>> for Reply {
    ghost from_gives = { λ asked reply. reply ≡ reply_with asked };

    fn from(asked: Option<Implication>) -> Reply {
        asked.map_or(Reply::Finished, Reply::Question)
    }
}

// A reply as a line of text.
impl fmt::Display for Reply {
    ghost output = { λ r. Some (reply_text r) };

    fn fmt<W: fmt::Write>(&self, f: &mut fmt::Formatter<W>) -> fmt::Result {
        match self {
            Reply::Question(asked) => {
                let premise = asked.premise;
                let conclusion = asked.conclusion;
                write!(f, "all with {premise} have {conclusion}?")
            }
            Reply::Finished => write!(f, "finished"),
            Reply::Refused(refusal) => write!(f, "{refusal}"),
        }
    }
}
