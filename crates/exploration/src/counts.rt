// How many implications and examples a row knows, and what an answer that is taken adds to them.
ghost use Rattle.std.specs.Prelude.{◌≡◌, ◌+◌, ◌*◌, ◌<◌, length, slice_set, Ok};
ghost use Rattle.exploration.specs.Answers.{RoomFor, checked_room, raised, written};
ghost use Rattle.exploration.specs.Row.{checked_row};

use crate::row::{EXAMPLES, IMPLICATIONS};
use contexts::Implication;
use replies::{Refusal, Step};

// How many implications and examples there is room for.
pub const ROOM: usize = 4096;

#[derive(Clone, Copy, PartialEq, Eq, Debug)]
pub struct Counts {
    pub implications: usize,
    pub examples: usize,
}

impl Counts {
    // Whether there is room for what an answer does.
    pub(crate) fn check_room(self, step: Step) -> Result<Step, Refusal>
        ensures { result ≡ checked_room self step }
    {
        match step {
            Step::Confirm(_) if self.implications >= ROOM => Err(Refusal::NoRoomForImplication),
            Step::Name(_) if self.examples >= ROOM => Err(Refusal::NoRoomForExample),
            _ => Ok(step),
        }
    }

    // Writes one entry more behind the others of a row, and raises its count there and here.
    pub(crate) fn add(&mut self, known: &mut [u64], step: Step)
        requires counted { checked_row known.old ≡ Ok self.old }
        requires room { RoomFor self.old step }
        ensures known { known.new ≡ written known.old self.old step }
        ensures counts { self.new ≡ raised self.old step }
    {
        match step {
            Step::Confirm(implication) => {
                put_implication(
                    &mut known[IMPLICATIONS..EXAMPLES],
                    self.implications,
                    implication,
                );
                self.implications += 1;
                known[1] = self.implications as u64;
            }
            Step::Name(object) => {
                known[EXAMPLES + self.examples] = u64::from(object);
                self.examples += 1;
                known[2] = self.examples as u64;
            }
        }
    }
}

// Writes an implication at a place of the implications' part. The bases have the same two lines: see there why.
fn put_implication(part: &mut [u64], place: usize, implication: Implication)
    requires { 2 * place + 1 < length part.old }
    ensures { part.new ≡ slice_set (slice_set part.old (2 * place) implication.premise.bits) (2 * place + 1) implication.conclusion.bits }
{
    part[2 * place] = u64::from(implication.premise);
    part[2 * place + 1] = u64::from(implication.conclusion);
}
