// Whole dialogues about drawn yards, with a foreman who names any object that breaks the question.
use crate::drawing::Draw;
use crate::naive::{Rule, Yard, power};
use crate::rows::known_in;
use bases::{BASE_LENGTH, base_of_context, base_of_list, implications_of};
use contexts::Implication;
use exploration::{ROW_LENGTH, open, question, take_all, take_answer};
use replies::Reply;
use std::alloc::{AllocError, Global};
use std::process::Abort;
use std::test::Fail;

impl From<Implication> for Rule {
    fn from(implication: Implication) -> Rule {
        Rule {
            premise: u64::from(implication.premise),
            conclusion: u64::from(implication.conclusion),
        }
    }
}

// A yard, and what is found of it: the naive base, the row of a dialogue and the answers given in it; and memory that is lent to the library.
#[derive(Drop)]
pub struct Found {
    pub draw: Draw,
    pub n: u32,
    pub objects: Vec<u64>,
    // How a failed assertion tells the yard.
    pub note: String,
    pub naive: Vec<u64>,
    pub row: Vec<u64>,
    answers: Vec<u64>,
    again: Vec<u64>,
    base: Vec<u64>,
}

// An object that breaks the question. Of several each is as likely: the k-th takes the place of the one before with one chance in k.
fn counterexample(draw: &mut Draw, objects: &[u64], asked: Rule) -> Option<u64> {
    let breaking = objects
        .iter()
        .filter(|object| !asked.is_respected_by(**object));
    let taking = breaking.zip(1..).filter(|(_, k)| draw.below(*k) == 0);
    let (object, _) = taking.last()?;
    Some(*object)
}

// A context as it is lent: n, the count and the objects.
fn context_row(heap: Global, yard: Yard<'_>) -> Result<Vec<u64>, AllocError> {
    let mut row = vec![in heap; u64::from(yard.n), yard.objects.len() as u64]?;
    row.extend_from_slice(yard.objects)?;
    Ok(row)
}

// A list as it is lent: n, the count and the rules, before each of which stands another that holds in the yard. So it has as many rules as these
// have numbers.
fn list_row(
    heap: Global,
    yard: Yard<'_>,
    rules: &[u64],
    draw: &mut Draw,
) -> Result<Vec<u64>, AllocError> {
    let mut row = vec![in heap; u64::from(yard.n), rules.len() as u64]?;
    for rule in rules.chunks_exact(2) {
        let spare = draw.set(yard.n, 3);
        row.extend_from_slice(&[spare, yard.shared(spare)])?;
        row.extend_from_slice(rule)?;
    }
    Ok(row)
}

impl Found {
    pub fn new(heap: Global) -> Result<Found, AllocError> {
        Ok(Found {
            draw: Draw { state: 1 },
            n: 0,
            objects: Vec::new(heap),
            note: String::new(heap),
            naive: Vec::new(heap),
            row: vec![in heap; 0u64; ROW_LENGTH]?,
            answers: Vec::new(heap),
            again: vec![in heap; 0u64; ROW_LENGTH]?,
            base: vec![in heap; 0u64; BASE_LENGTH]?,
        })
    }

    // So many objects, of which each has an attribute with so many chances in eight.
    pub fn draw_objects(&mut self, count: usize, chances: u64) -> Result<(), AllocError> {
        self.objects.clear();
        for _ in 0..count {
            self.objects.push(self.draw.set(self.n, chances))?;
        }
        Ok(())
    }

    // Leads a dialogue about the yard to its end. Twice 2^n answers suffice, and none is refused. The loop is left early: an answer needs the reply
    // before it, so there is no list to go through.
    pub fn hold(&mut self) -> Result<(), Fail> {
        self.answers.clear();
        open(self.row.as_mut_slice(), u64::from(self.n))?;
        let mut reply = question(self.row.as_slice());
        for _ in 0..power(self.n).wrapping_mul(2) {
            let Reply::Question(asked) = reply else {
                break;
            };
            let named = counterexample(&mut self.draw, self.objects.as_slice(), Rule::from(asked));
            let answer = named.map_or([0, 0], |object| [1, object]);
            reply = take_answer(self.row.as_mut_slice(), &answer);
            self.answers.extend_from_slice(&answer)?;
        }
        let note = self.note.as_str();
        match reply {
            Reply::Finished => Ok(()),
            Reply::Question(_) => Err(Fail::new(format_args!("{note}: too many questions"))),
            Reply::Refused(refusal) => Err(Fail::new(format_args!("{note}: {refusal}"))),
        }
    }

    // The dialogue confirms the naive base, in its order.
    fn check_confirmed(&mut self, rt: &impl Abort) -> Result<(), Fail> {
        self.hold()?;
        let note = self.note.as_str();
        assert_eq!(rt;
            known_in(self.row.as_slice()).rules,
            self.naive.as_slice(),
            "{note}"
        );
        Ok(())
    }

    // The same answers given at once leave the same row.
    fn check_at_once(&mut self, rt: &(impl Abort + AllocGlobal)) -> Result<(), Fail> {
        let note = self.note.as_str();
        let answers = self.answers.as_slice();
        let dialogue = take_all(
            rt.alloc(),
            self.again.as_mut_slice(),
            u64::from(self.n),
            answers,
        );
        assert!(rt; dialogue.is_ok(), "{note}");
        let again = known_in(self.again.as_slice());
        assert_eq!(rt; again.rules, self.naive.as_slice(), "{note}");
        assert_eq!(rt;
            again.examples,
            known_in(self.row.as_slice()).examples,
            "{note}"
        );
        Ok(())
    }

    // The library's bases of the yard, and of the naive base with spare rules, are the naive base.
    pub fn check_bases(&mut self, rt: &(impl Abort + AllocGlobal)) -> Result<(), Fail> {
        let note = self.note.as_str();
        let yard = Yard {
            n: self.n,
            objects: self.objects.as_slice(),
        };
        self.naive = yard.stem_base(rt.alloc())?;
        let naive = self.naive.as_slice();
        let context = context_row(rt.alloc(), yard)?;
        let told = base_of_context(context.as_slice(), self.base.as_mut_slice());
        assert_eq!(rt; told, Ok(()), "{note}");
        assert_eq!(rt; implications_of(self.base.as_slice()), naive, "{note}");
        let list = list_row(rt.alloc(), yard, naive, &mut self.draw)?;
        let told = base_of_list(list.as_slice(), self.base.as_mut_slice());
        assert_eq!(rt; told, Ok(()), "{note}");
        assert_eq!(rt; implications_of(self.base.as_slice()), naive, "{note}");
        Ok(())
    }

    // Each rule over n attributes holds for the examples exactly if it holds in the yard, and follows from those confirmed exactly then.
    fn check_every_rule(&self, rt: &impl Abort) -> Result<(), Fail> {
        let note = self.note.as_str();
        let known = known_in(self.row.as_slice());
        for premise in 0..power(self.n) {
            for conclusion in 0..power(self.n) {
                let rule = Rule {
                    premise,
                    conclusion,
                };
                let holds = rule.holds(self.objects.as_slice());
                assert!(rt; rule.holds(known.examples) == holds, "{note}");
                assert!(rt; known.follows(rule) == holds, "{note}");
            }
        }
        Ok(())
    }

    fn check_yard(&mut self, rt: &(impl Abort + AllocGlobal)) -> Result<(), Fail> {
        self.check_bases(rt)?;
        self.check_confirmed(rt)?;
        self.check_at_once(rt)?;
        if self.n > 5 {
            return Ok(());
        }
        self.check_every_rule(rt)
    }

    // Yards of n attributes and of these counts of objects, with few, half or most of the attributes.
    fn check_yards(
        &mut self,
        rt: &(impl Abort + AllocGlobal),
        n: u32,
        counts: &[usize],
        seed: u64,
    ) -> Result<(), Fail> {
        self.n = n;
        self.draw = Draw { state: seed };
        for count in counts {
            for chances in [1, 4, 6, 7] {
                self.draw_objects(*count, chances)?;
                self.note = format!(in rt.alloc();
                    "n {n}, {count} objects, {chances} chances, seed {seed}"
                )?;
                self.check_yard(rt)?;
            }
        }
        Ok(())
    }
}

#[test]
fn yards_of_few_attributes(rt: HostRuntime) -> Result<(), Fail> {
    let mut found = Found::new(rt.alloc())?;
    for n in 0..6 {
        for seed in 0..50 {
            found.check_yards(&rt, n, &[0, 1, 2, 3, 5, 9, 20], seed)?;
        }
    }
    Ok(())
}

#[test]
fn yards_of_many_attributes(rt: HostRuntime) -> Result<(), Fail> {
    let mut found = Found::new(rt.alloc())?;
    for n in 6..13 {
        for seed in 0..10 {
            found.check_yards(&rt, n, &[0, 1, 2, 3, 5, 9, 20, 80], seed)?;
        }
    }
    Ok(())
}
