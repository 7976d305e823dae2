// Contexts whose bases are known.
use crate::naive::{everything, is_within, lectic, power};
use crate::yards::Found;
use std::process::Abort;
use std::test::Fail;

// These rules are the base of these objects, by the library and by the naive computation.
fn check_known(
    rt: &(impl Abort + AllocGlobal),
    n: u32,
    objects: &[u64],
    rules: &[u64],
    note: &str,
) -> Result<(), Fail> {
    let mut found = Found::new(rt.alloc())?;
    found.n = n;
    found.objects.extend_from_slice(objects)?;
    found.note.push_str(note)?;
    found.check_bases(rt)?;
    assert_eq!(rt; found.naive.as_slice(), rules, "{note}");
    Ok(())
}

// The kinds of triangles: 0 equilateral, 1 isosceles, 2 acute, 3 right, 4 obtuse.
const TRIANGLES: [u64; 7] = [
    0b00111, 0b00110, 0b01010, 0b10010, 0b00100, 0b01000, 0b10000,
];

// What school geometry says of them: none has two of the three kinds of angle, and an equilateral one is isosceles and acute.
const OF_TRIANGLES: [u64; 8] = [
    0b11000, 0b11111, 0b10100, 0b11111, 0b01100, 0b11111, 0b00001, 0b00111,
];

#[test]
fn triangles(rt: HostRuntime) -> Result<(), Fail> {
    check_known(&rt, 5, &TRIANGLES, &OF_TRIANGLES, "triangles")
}

// The objects are all sets of k attributes, k + 2 at most n: then each set of k + 1 brings everything, and there is no other rule, as the
// definition has it.
fn check_sets_of(rt: &(impl Abort + AllocGlobal), n: u32, k: u32) -> Result<(), Fail> {
    let mut objects = Vec::new(rt.alloc());
    let mut rules = Vec::new(rt.alloc());
    for place in 0..power(n) {
        let s = lectic(n, place);
        if s.count_ones() == k {
            objects.push(s)?;
        }
        if s.count_ones() == k.saturating_add(1) {
            rules.extend_from_slice(&[s, everything(n)])?;
        }
    }
    let note = format!(in rt.alloc(); "the sets of {k} of {n} attributes")?;
    check_known(rt, n, objects.as_slice(), rules.as_slice(), note.as_str())
}

#[test]
fn sets_of_one_size(rt: HostRuntime) -> Result<(), Fail> {
    for k in 0..6 {
        check_sets_of(&rt, 7, k)?;
    }
    check_sets_of(&rt, 12, 1)?;
    check_sets_of(&rt, 12, 5)
}

// Whether a set has 0 not, and one of each pair of attributes i and k + i.
fn has_one_of_each(s: u64, k: u32) -> bool {
    let has = |attribute: u32| is_within(power(attribute), s);
    !has(0) && (1..=k).all(|i| has(i) != has(i.saturating_add(k)))
}

// For each pair i and k + i an object has all attributes but these and 0, and for each attribute but 0 an object has all others. What has one of
// each pair has 0 as well, and that is all. So 3k objects with 2k + 1 attributes have a base of 2^k rules: such contexts stand in Kuznetsov, "On
// the Intractability of Computing the Duquenne-Guigues Base", Journal of Universal Computer Science 10(8), 2004.
fn check_crowded(rt: &(impl Abort + AllocGlobal), k: u32) -> Result<(), Fail> {
    let n = k.saturating_mul(2).saturating_add(1);
    let mut objects = Vec::new(rt.alloc());
    for attribute in 1..n {
        objects.push(everything(n) & !power(attribute))?;
        let pair = power(attribute) | power(attribute.saturating_add(k));
        if attribute <= k {
            objects.push(everything(n) & !pair & !1)?;
        }
    }
    let mut rules = Vec::new(rt.alloc());
    for place in 0..power(n) {
        let s = lectic(n, place);
        if has_one_of_each(s, k) {
            rules.extend_from_slice(&[s, s | 1])?;
        }
    }
    assert_eq!(rt; rules.len() as u64, power(k).wrapping_mul(2));
    let note = format!(in rt.alloc(); "{k} pairs")?;
    check_known(rt, n, objects.as_slice(), rules.as_slice(), note.as_str())
}

#[test]
fn many_rules_for_few_objects(rt: HostRuntime) -> Result<(), Fail> {
    for k in 1..6 {
        check_crowded(&rt, k)?;
    }
    Ok(())
}
