// Why the entries refuse.
ghost use Rattle.std.specs.Prelude.{◌≡◌, Some};
ghost use Rattle.bases.specs.Refusals.{refusal_number, refusal_place, refusal_text};

use std::fmt;

// Why an entry refused. The lent output is then as it was.
#[derive(Clone, Copy, Debug, PartialEq, Eq)]
pub enum Refusal {
    // The lent output has this length, and that is too short.
    OutputTooShort(usize),
    // There are more than twelve attributes.
    TooManyAttributes,
    // The first row that is cut short, has an attribute that is not there, or is one too many.
    RowAtFault(usize),
}

impl Refusal {
    // The number by which the refusal is told: a rule of the project, like the place.
    pub fn number(self) -> u64
        ensures { result ≡ refusal_number self }
    {
        match self {
            Refusal::OutputTooShort(_) => 1,
            Refusal::TooManyAttributes => 2,
            Refusal::RowAtFault(_) => 8,
        }
    }

    // The place that is told with it.
    pub fn place(self) -> u64
        ensures { result ≡ refusal_place self }
    {
        match self {
            Refusal::OutputTooShort(length) => length as u64,
            Refusal::TooManyAttributes => 0,
            Refusal::RowAtFault(row) => row as u64,
        }
    }
}

// A refusal as a line of text. A dialogue's refusals are others (`replies::Refusal`); for this one line they need no crate below both.
impl fmt::Display for Refusal {
    ghost output = { λ r. Some (refusal_text r) };

    fn fmt<W: fmt::Write>(&self, f: &mut fmt::Formatter<W>) -> fmt::Result {
        let number = self.number();
        let place = self.place();
        write!(f, "refused {number} at {place}")
    }
}
