// Single answers to drawn rows, also to such as no dialogue reaches, held to the judge.
use crate::drawing::Draw;
use crate::judge::{FAULTS, Refused, Taken, asked_in, judged, write};
use crate::naive::{Rule, power};
use crate::rows::{EXAMPLES, RULES, at, known_in, part, put};
use exploration::{question, take_answer};
use replies::Reply;
use std::alloc::{AllocError, Global};
use std::process::Abort;
use std::test::Fail;

// Which verdicts of the judge were met.
#[derive(Drop)]
struct Met {
    faults: [bool; FAULTS],
    confirmed: bool,
    named: bool,
}

impl Met {
    fn add(&mut self, verdict: Result<Taken, Refused>) {
        match verdict {
            Err(refused) => self.faults[refused.fault as usize] = true,
            Ok(Taken::Confirm(_)) => self.confirmed = true,
            Ok(Taken::Name(_)) => self.named = true,
        }
    }
}

// What a reply tells: what is asked, or the number and the place of a refusal.
fn told(reply: Reply) -> Result<Option<Rule>, (u64, u64)> {
    match reply {
        Reply::Question(asked) => Ok(Some(Rule::from(asked))),
        Reply::Finished => Ok(None),
        Reply::Refused(refusal) => Err((refusal.number(), refusal.place())),
    }
}

// Rows of n attributes, drawn one after the other, into which two write: the library, and the judge.
#[derive(Drop)]
struct Drawn {
    draw: Draw,
    n: u32,
    round: u32,
    row: Vec<u64>,
    judges: Vec<u64>,
    met: Met,
}

impl Drawn {
    fn new(heap: Global) -> Drawn {
        Drawn {
            draw: Draw { state: 1 },
            n: 0,
            round: 0,
            row: Vec::new(heap),
            judges: Vec::new(heap),
            met: Met {
                faults: [false; FAULTS],
                confirmed: false,
                named: false,
            },
        }
    }

    // A length of a row, at times too short.
    fn length(&mut self) -> usize {
        if self.draw.below(20) == 0 {
            return self.draw.below(12291) as usize;
        }
        self.draw.below(3).saturating_add(12291) as usize
    }

    // How many implications or examples a row counts: mostly few, at times so many, or about as many as there is room for.
    fn count(&mut self, many: u64) -> u64 {
        match self.draw.below(12) {
            0 => self.draw.below(9).saturating_add(4093),
            1 | 2 => many,
            _ => self.draw.below(6),
        }
    }

    // Nothing is put behind the end of a row that is too short, but the draws go on.
    fn put(&mut self, place: usize, number: u64) {
        put(self.row.as_mut_slice(), place, number);
    }

    // The implications that a row counts; half of the rows get only such as say nothing, so that much is left to ask.
    fn draw_rules(&mut self) {
        let mild = self.draw.below(2) == 0;
        for place in 0..at(self.row.as_slice(), 1).min(4096) as usize {
            let place = place.saturating_mul(2).saturating_add(RULES);
            let premise = self.draw.set(self.n, 4);
            let conclusion = self.draw.set(self.n, 3);
            let said = if mild {
                premise & conclusion
            } else {
                conclusion
            };
            self.put(place, premise);
            self.put(place.saturating_add(1), said);
        }
    }

    // The examples that a row counts; some attributes may be common to all, so that there is something to ask however many they are.
    fn draw_examples(&mut self) {
        let common = self.draw.set(self.n, 2);
        let chances = self.draw.below(8);
        for place in 0..at(self.row.as_slice(), 2).min(4096) as usize {
            let object = self.draw.set(self.n, chances) | common;
            self.put(place.saturating_add(EXAMPLES), object);
        }
    }

    // At times a number has an attribute that is not there, also one that is not counted, or there are too many attributes.
    fn spoil(&mut self) {
        let strange = self.draw.below(1 << 30).saturating_add(power(self.n));
        if self.draw.below(8) == 0 {
            let place = self.draw.below(8) as usize;
            self.put(place.saturating_add(RULES), strange);
        }
        if self.draw.below(8) == 0 {
            let place = self.draw.below(4) as usize;
            self.put(place.saturating_add(EXAMPLES), strange);
        }
        if self.draw.below(20) == 0 {
            let n = self.draw.below(99).saturating_add(10);
            self.put(0, n);
        }
    }

    // What stands behind the counts has an attribute that is not there.
    fn draw_row(&mut self, heap: Global, many: u64) -> Result<(), AllocError> {
        self.row = vec![in heap; power(self.n); self.length()]?;
        self.put(0, u64::from(self.n));
        let rules = self.count(many);
        self.put(1, rules);
        let examples = self.count(many);
        self.put(2, examples);
        self.draw_rules();
        self.draw_examples();
        self.spoil();
        self.judges = self.row.clone()?;
        Ok(())
    }

    // A kind, an object and a number that is not read. Half of the objects have the premise that is asked about, and some an attribute that is not
    // there.
    fn draw_answer(&mut self) -> [u64; 3] {
        let asked = asked_in(self.row.as_slice()).ok().flatten();
        let premise = asked.map_or(0, |asked| asked.premise);
        let object = match self.draw.below(8) {
            0 => self.draw.below(1 << 30),
            1 | 2 | 3 => self.draw.set(self.n, 4),
            _ => self.draw.set(self.n, 4) | premise,
        };
        match self.draw.below(16) {
            0 => [self.draw.below(1 << 30), object, 0],
            1 => [0, object, 1],
            2 | 3 | 4 => [0, 0, 2],
            _ => [1, object, 3],
        }
    }

    // A reply asks what the judge asks, or refuses as the judge does.
    fn check_reply(
        &self,
        rt: &impl Abort,
        reply: Reply,
        asked: Result<Option<Rule>, Refused>,
    ) -> Result<(), Fail> {
        let round = self.round;
        let asked = asked.map_err(|refused| (refused.fault.number(), refused.place));
        assert_eq!(rt; told(reply), asked, "round {round}");
        Ok(())
    }

    // What is asked in a row, or why it is refused.
    fn check_question(&self, rt: &impl Abort) -> Result<(), Fail> {
        let row = self.row.as_slice();
        self.check_reply(rt, question(row), asked_in(row))
    }

    // The answer does what the judge says, and the rows are then the same.
    fn check_answer(&mut self, rt: &impl Abort, answer: &[u64]) -> Result<(), Fail> {
        let round = self.round;
        let verdict = judged(self.judges.as_slice(), answer);
        if let Ok(taken) = verdict {
            write(self.judges.as_mut_slice(), taken);
        }
        self.met.add(verdict);
        let reply = take_answer(self.row.as_mut_slice(), answer);
        assert!(rt; self.row == self.judges, "round {round}");
        let asked = verdict.map(|_| known_in(self.judges.as_slice()).asked());
        self.check_reply(rt, reply, asked)
    }

    // Some answers, most of them of two numbers.
    fn check_answers(&mut self, rt: &impl Abort) -> Result<(), Fail> {
        self.check_question(rt)?;
        for _ in 0..6 {
            let answer = self.draw_answer();
            let length = match self.draw.below(8) {
                0 => 0,
                1 => 1,
                2 => 3,
                _ => 2,
            };
            self.check_answer(rt, part(&answer, 0, length))?;
        }
        Ok(())
    }
}

// So many rows, with numbers of attributes that go round from the fewest.
fn check_rows(
    rt: &(impl Abort + AllocGlobal),
    rounds: u32,
    fewest: u32,
    many: u64,
) -> Result<Met, Fail> {
    let mut drawn = Drawn::new(rt.alloc());
    for round in 0..rounds {
        drawn.n = fewest.saturating_add(round % 6);
        drawn.round = round;
        drawn.draw_row(rt.alloc(), many)?;
        drawn.check_answers(rt)?;
    }
    Ok(drawn.met)
}

#[test]
fn every_verdict_is_met(rt: HostRuntime) -> Result<(), Fail> {
    let met = check_rows(&rt, 1500, 0, 4096)?;
    for (fault, met) in met.faults.iter().enumerate() {
        assert!(&rt; *met, "fault {fault} is not met");
    }
    assert!(&rt; met.confirmed && met.named);
    Ok(())
}

#[test]
fn rows_of_many_attributes(rt: HostRuntime) -> Result<(), Fail> {
    let _ = check_rows(&rt, 600, 7, 20)?;
    Ok(())
}
