// That no shorter list will do, by trying every list.
use crate::naive::{Rule, Yard, everything, is_within, power};
use crate::rows::at;
use crate::yards::Found;
use std::alloc::{AllocError, Global};
use std::process::Abort;
use std::test::Fail;

// How many sets of n attributes there are.
fn sets(n: u32) -> u32 {
    1u32.wrapping_shl(n)
}

// The sets of n attributes that respect a rule, as a number in which 2^s stands for the set s. So n is 4 at most.
fn respecting(n: u32, rule: Rule) -> u64 {
    let respecting = (0..sets(n)).filter(|s| rule.is_respected_by(u64::from(*s)));
    respecting.fold(0, |all, s| all | power(s))
}

// What each rule that holds in a yard leaves of all sets, but for rules that leave all. A list that tells the yard has no other rules, since each
// of its rules must hold.
fn respecting_each(heap: Global, yard: Yard<'_>) -> Result<Vec<u64>, AllocError> {
    let mut each = Vec::new(heap);
    for premise in 0..power(yard.n) {
        for conclusion in 0..power(yard.n) {
            let rule = Rule {
                premise,
                conclusion,
            };
            if rule.holds(yard.objects) && !is_within(conclusion, premise) {
                each.push(respecting(yard.n, rule))?;
            }
        }
    }
    Ok(each)
}

// What lists of so many rules leave of all sets, and no shorter list, is marked with that number. This marks what lists with one more rule leave,
// and no list that is shorter: every list gets its turn, but of those that leave the same sets only one is tried further. It goes over places, since it
// writes the slice that it walks.
fn mark_more(marks: &mut [Option<u64>], each: &[u64], rules: u64) {
    for left in 0..marks.len() {
        if marks.get(left).copied().flatten() == Some(rules) {
            for respecting in each {
                if let Some(mark) = marks.get_mut(left & *respecting as usize) {
                    mark.get_or_insert(rules.saturating_add(1));
                }
            }
        }
    }
}

// How many rules the shortest list has that tells a yard: one whose respecting sets respect every rule that holds. Sixteen are more than enough,
// since each rule of a shortest list takes away a set.
fn shortest(heap: Global, n: u32, each: &[u64]) -> Result<Option<u64>, AllocError> {
    let all = everything(sets(n));
    let wanted = each.iter().fold(all, |left, respecting| left & respecting);
    let mut marks = vec![in heap; None; power(sets(n)) as usize]?;
    if let Some(mark) = marks.get_mut(all as usize) {
        *mark = Some(0);
    }
    for rules in 0..16 {
        mark_more(marks.as_mut_slice(), each, rules);
    }
    Ok(marks.get(wanted as usize).copied().flatten())
}

impl Found {
    // A dialogue about the yard confirms as many rules as the shortest list has.
    fn check_least(&mut self, rt: &(impl Abort + AllocGlobal)) -> Result<(), Fail> {
        self.hold()?;
        let yard = Yard {
            n: self.n,
            objects: self.objects.as_slice(),
        };
        let each = respecting_each(rt.alloc(), yard)?;
        let least = shortest(rt.alloc(), self.n, each.as_slice())?;
        let note = self.note.as_str();
        assert_eq!(rt; Some(at(self.row.as_slice(), 1)), least, "{note}");
        Ok(())
    }

    // Each number below 2^2^n stands for a yard of the sets whose bits it has.
    fn number_yard(&mut self, number: u64) -> Result<(), AllocError> {
        self.objects.clear();
        for s in 0..sets(self.n) {
            if is_within(power(s), number) {
                self.objects.push(u64::from(s))?;
            }
        }
        Ok(())
    }

    fn check_every_yard(&mut self, rt: &(impl Abort + AllocGlobal), n: u32) -> Result<(), Fail> {
        self.n = n;
        for number in 0..power(sets(n)) {
            self.number_yard(number)?;
            self.note = format!(in rt.alloc(); "n {n}, yard {number}")?;
            self.check_least(rt)?;
        }
        Ok(())
    }

    fn check_some_yards(&mut self, rt: &(impl Abort + AllocGlobal), n: u32) -> Result<(), Fail> {
        self.n = n;
        for count in 0..12 {
            for chances in 1..8 {
                self.draw_objects(count, chances)?;
                self.note = format!(in rt.alloc(); "{count} objects, {chances} chances")?;
                self.check_least(rt)?;
            }
        }
        Ok(())
    }
}

#[test]
fn no_shorter_list(rt: HostRuntime) -> Result<(), Fail> {
    let mut found = Found::new(rt.alloc())?;
    for n in 0..4 {
        found.check_every_yard(&rt, n)?;
    }
    found.check_some_yards(&rt, 4)
}
