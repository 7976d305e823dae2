// Lent rows, read and written by their layout.
use crate::naive::Known;

// Where the implications and the examples of a dialogue's row begin, behind n and the two counts.
pub const RULES: usize = 3;

pub const EXAMPLES: usize = 8195;

// The number at a place, or 0 if the row ends before it.
pub fn at(row: &[u64], place: usize) -> u64 {
    row.get(place).copied().unwrap_or(0)
}

pub fn put(row: &mut [u64], place: usize, number: u64) {
    if let Some(slot) = row.get_mut(place) {
        *slot = number;
    }
}

// So many numbers of a row, from a place on.
pub fn part(row: &[u64], place: usize, count: usize) -> &[u64] {
    row.get(place..place.saturating_add(count)).unwrap_or(&[])
}

// What the row of a dialogue knows.
pub fn known_in(row: &[u64]) -> Known<'_> {
    Known {
        n: u32::try_from(at(row, 0)).unwrap_or(0),
        rules: part(row, RULES, (at(row, 1) as usize).saturating_mul(2)),
        examples: part(row, EXAMPLES, at(row, 2) as usize),
    }
}
