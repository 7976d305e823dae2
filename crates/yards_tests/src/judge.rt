// A judge of answers who goes down the list of refusals.
use crate::naive::{Known, Rule, power};
use crate::rows::{EXAMPLES, RULES, at, known_in, put};

// Why an answer is refused, in the order of the list.
#[derive(Clone, Copy)]
pub enum Fault {
    ShortRow,
    ManyRules,
    ManyExamples,
    ManyAttributes,
    StrangeRule,
    StrangeExample,
    ShortAnswer,
    NoKind,
    StrangeObject,
    NumberedAlways,
    NothingAsked,
    NoCounterexample,
    BreaksConfirmed,
    NoRoomForRule,
    NoRoomForExample,
}

// How many faults there are.
pub const FAULTS: usize = Fault::NoRoomForExample as usize + 1;

impl Fault {
    // The number by which the refusal is told, which the list of refusals has.
    pub fn number(self) -> u64 {
        match self {
            Fault::ShortRow | Fault::ManyRules | Fault::ManyExamples => 1,
            Fault::ManyAttributes | Fault::StrangeRule | Fault::StrangeExample => 2,
            Fault::ShortAnswer | Fault::NoKind | Fault::StrangeObject | Fault::NumberedAlways => 3,
            Fault::NothingAsked => 4,
            Fault::NoCounterexample => 5,
            Fault::BreaksConfirmed => 6,
            Fault::NoRoomForRule | Fault::NoRoomForExample => 7,
        }
    }

    // The refusal at a place.
    fn at(self, place: u64) -> Refused {
        Refused { fault: self, place }
    }
}

// A refusal, with the place that is told.
#[derive(Clone, Copy)]
pub struct Refused {
    pub fault: Fault,
    pub place: u64,
}

// What an answer that is taken adds to a row.
#[derive(Clone, Copy)]
pub enum Taken {
    // A rule, to be written behind the implications.
    Confirm(Rule),
    // An object, to be written behind the examples.
    Name(u64),
}

// The place of the first number that has an attribute that is not there.
fn first_strange(n: u32, numbers: &[u64]) -> Option<u64> {
    let place = numbers.iter().position(|number| *number >= power(n))?;
    Some(place as u64)
}

// Refusals 1 and 2.
fn check_row(row: &[u64]) -> Result<(), Refused> {
    if row.len() < 12291 {
        return Err(Fault::ShortRow.at(row.len() as u64));
    }
    if at(row, 1) > 4096 {
        return Err(Fault::ManyRules.at(1));
    }
    if at(row, 2) > 4096 {
        return Err(Fault::ManyExamples.at(2));
    }
    if at(row, 0) > 12 {
        return Err(Fault::ManyAttributes.at(0));
    }
    check_numbers(known_in(row))
}

fn check_numbers(known: Known<'_>) -> Result<(), Refused> {
    if let Some(place) = first_strange(known.n, known.rules) {
        return Err(Fault::StrangeRule.at(place.saturating_add(RULES as u64)));
    }
    if let Some(place) = first_strange(known.n, known.examples) {
        return Err(Fault::StrangeExample.at(place.saturating_add(EXAMPLES as u64)));
    }
    Ok(())
}

// The object that an answer names; None if it says always. Refusal 3.
fn named_in(n: u32, answer: &[u64]) -> Result<Option<u64>, Refused> {
    match answer {
        [0, 0, ..] => Ok(None),
        [0, _, ..] => Err(Fault::NumberedAlways.at(1)),
        [1, object, ..] if *object < power(n) => Ok(Some(*object)),
        [1, _, ..] => Err(Fault::StrangeObject.at(1)),
        [_, _, ..] => Err(Fault::NoKind.at(0)),
        _ => Err(Fault::ShortAnswer.at(answer.len() as u64)),
    }
}

// What is asked in a row.
pub fn asked_in(row: &[u64]) -> Result<Option<Rule>, Refused> {
    check_row(row)?;
    Ok(known_in(row).asked())
}

// What an answer does to a row.
pub fn judged(row: &[u64], answer: &[u64]) -> Result<Taken, Refused> {
    check_row(row)?;
    let known = known_in(row);
    let named = named_in(known.n, answer)?;
    let asked = known.asked().ok_or(Fault::NothingAsked.at(0))?;
    match named {
        None => confirm(known, asked),
        Some(object) => name(known, asked, object),
    }
}

// Refusal 7 for a rule.
fn confirm(known: Known<'_>, asked: Rule) -> Result<Taken, Refused> {
    if known.rules.len() == 2 * 4096 {
        return Err(Fault::NoRoomForRule.at(1));
    }
    Ok(Taken::Confirm(asked))
}

// Refusals 5 to 7 for an object.
fn name(known: Known<'_>, asked: Rule, object: u64) -> Result<Taken, Refused> {
    if asked.is_respected_by(object) {
        return Err(Fault::NoCounterexample.at(object));
    }
    if let Some(place) = known.first_broken(object) {
        return Err(Fault::BreaksConfirmed.at(place as u64));
    }
    if known.examples.len() == 4096 {
        return Err(Fault::NoRoomForExample.at(2));
    }
    Ok(Taken::Name(object))
}

// Writes what is taken: one entry behind the others, and its count.
pub fn write(row: &mut [u64], taken: Taken) {
    match taken {
        Taken::Confirm(rule) => {
            let count = at(row, 1);
            let place = (count as usize).saturating_mul(2).saturating_add(RULES);
            put(row, place, rule.premise);
            put(row, place.saturating_add(1), rule.conclusion);
            put(row, 1, count.saturating_add(1));
        }
        Taken::Name(object) => {
            let count = at(row, 2);
            put(row, (count as usize).saturating_add(EXAMPLES), object);
            put(row, 2, count.saturating_add(1));
        }
    }
}
