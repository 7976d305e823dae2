// The lent row: its checks, and its parts. That a row of numbers is lent is a rule of the project, so its counts stand in it.
ghost use Rattle.std.specs.Prelude.{◌≡◌, ◌<◌, true, length, is_err, nat_le, position, Some, None, IfSome, Ok, Err, MatchResult};
ghost use Rattle.std.proofs.Props.{props};
ghost use Rattle.exploration.specs.Row.{attribute_fault, attributes_in, checked_row, example_part, implication_part};

use crate::counts::{Counts, ROOM};
use attributes::AttributeCount;
use replies::Refusal;

// The numbers of a row: how many attributes there are, two counts, room for 4,096 implications of two sets each and for 4,096 examples.
pub const ROW_LENGTH: usize = 12291;

// Where the implications and the examples begin.
pub const IMPLICATIONS: usize = 3;

pub const EXAMPLES: usize = 8195;

// A row that is long enough, with counts for which it has room.
#[derive(Clone, Copy)]
pub struct Row<'a> {
    pub numbers: &'a [u64],
    pub counts: Counts,
    ghost checked: { checked_row numbers.now ≡ Ok counts } by { Prim.hlevel props },
}

impl<'a> Row<'a> {
    // Checks how long a row is, and what it counts.
    pub(crate) fn check(numbers: &'a [u64]) -> Result<Row<'a>, Refusal>
        ensures { MatchResult result (λ row. row.numbers.now ≡ numbers.now) (λ fault. checked_row numbers.now ≡ Err fault) }
    {
        if numbers.len() < ROW_LENGTH {
            return Err(Refusal::RowTooShort(numbers.len()));
        }
        if numbers[1] > ROOM as u64 {
            return Err(Refusal::TooManyImplications);
        }
        if numbers[2] > ROOM as u64 {
            return Err(Refusal::TooManyExamples);
        }
        Ok(Row {
            numbers,
            counts: Counts {
                implications: numbers[1] as usize,
                examples: numbers[2] as usize,
            },
        })
    }

    // The numbers of the implications, two for each.
    pub(crate) fn implications(&self) -> &'a [u64]
        ensures { result.now ≡ implication_part self.now.numbers.now }
    {
        &self.numbers[IMPLICATIONS..IMPLICATIONS + 2 * self.counts.implications]
    }

    // The numbers of the examples.
    pub(crate) fn examples(&self) -> &'a [u64]
        ensures { result.now ≡ example_part self.now.numbers.now }
    {
        &self.numbers[EXAMPLES..EXAMPLES + self.counts.examples]
    }

    // How many attributes there are, if no number of the row has one that is not there.
    pub(crate) fn attributes(&self) -> Result<AttributeCount, Refusal>
        ensures { MatchResult result (λ n. (n.value ≡ attributes_in self.now.numbers.now) × (attribute_fault self.now.numbers.now ≡ None)) (λ fault. attribute_fault self.now.numbers.now ≡ Some fault) }
    {
        let Ok(n) = AttributeCount::try_from(self.numbers[0]) else {
            return Err(Refusal::TooManyAttributes);
        };
        let limit = n.limit();
        if let Some(place) = first_not_below(limit, self.implications()) {
            return Err(Refusal::UnknownAttribute(IMPLICATIONS + place));
        }
        if let Some(place) = first_not_below(limit, self.examples()) {
            return Err(Refusal::UnknownAttribute(EXAMPLES + place));
        }
        Ok(n)
    }
}

// The place of the first number that is not below a limit. The bases count those before it: one line in each crate.
fn first_not_below(limit: u64, numbers: &[u64]) -> Option<usize>
    ensures value { result ≡ position (λ m. nat_le limit m) numbers.now }
    ensures inside { IfSome result (λ place. place < length numbers.now) }
{
    numbers.iter().position(|number| *number >= limit)
}

// Takes the refusal from a check that has one: a rule of the project is that each check of a row or an answer hands on its value or leaves with its
// refusal by let .. else.
pub(crate) fn refusal_of<T: Copy>(checked: Result<T, Refusal>) -> Refusal
    requires { is_err checked ≡ true }
    ensures { checked ≡ Err result }
{
    checked.unwrap_err()
}
