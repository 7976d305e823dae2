// The lent rows, and their checks. That rows of numbers are lent is a rule of the project, so the counts stand in them.
ghost use Rattle.std.specs.Prelude.{◌≡◌, ◌*◌, ◌/◌, ◌^◌, ◌<◌, ◌≤◌, min, length, take, drop, Some, None, MatchResult};
ghost use Rattle.bases.specs.Rows.{attributes_in, count_in, fault, implication_part, sound_front};

use crate::refusal::Refusal;
use attributes::AttributeCount;

// The numbers of a row that takes a base: how many attributes there are, the count, and room for 4,096 implications of two sets each.
pub const BASE_LENGTH: usize = 8194;

// How many rows there may be.
pub const MOST_ROWS: usize = 4096;

// How many attributes there are, and the numbers of the rows, once they are checked.
#[derive(Clone, Copy)]
pub struct Checked<'a> {
    pub n: AttributeCount,
    pub rows: &'a [u64],
}

// The first refusal that applies to an input with rows of so many numbers and to an output of this length, or what the input has.
pub fn check(input: &[u64], width: usize, room: usize) -> Result<Checked<'_>, Refusal>
    requires { 0 < width }
    ensures { MatchResult result (λ c. (fault width input.now room ≡ None) × (c.n.value ≡ attributes_in input.now) × (c.rows.now ≡ take (width * count_in input.now) (drop 2 input.now)) × (8194 ≤ room)) (λ e. fault width input.now room ≡ Some e) }
{
    if room < BASE_LENGTH {
        return Err(Refusal::OutputTooShort(room));
    }
    let Ok(n) = AttributeCount::try_from(input.first().copied().unwrap_or(0)) else {
        return Err(Refusal::TooManyAttributes);
    };
    let [_, count, rows @ ..] = input else {
        return Err(Refusal::RowAtFault(0));
    };
    let sound = sound_rows(n, rows, width);
    if *count > sound as u64 {
        return Err(Refusal::RowAtFault(sound));
    }
    Ok(Checked {
        n,
        rows: &rows[..width * *count as usize],
    })
}

// How many rows stand whole at the front and have only attributes that are there; 4,096 at most.
fn sound_rows(n: AttributeCount, rows: &[u64], width: usize) -> usize
    requires { 0 < width }
    ensures value { result ≡ min (sound_front (2 ^ n.value) rows.now / width) 4096 }
    ensures inside { width * result ≤ length rows.now }
{
    (sound_front(n.limit(), rows) / width).min(MOST_ROWS)
}

// How many numbers at the front are below a limit. The exploration seeks the first that is not: one line in each crate.
fn sound_front(limit: u64, numbers: &[u64]) -> usize
    ensures value { result ≡ sound_front limit numbers.now }
    ensures inside { result ≤ length numbers.now }
{
    numbers.iter().take_while(|number| **number < limit).count()
}

// The numbers of the implications that a row counts, as many as it has.
pub fn implications_of(row: &[u64]) -> &[u64]
    ensures { result.now ≡ implication_part row.now }
{
    let [_, count, rest @ ..] = row else {
        return &[];
    };
    let length = count.saturating_mul(2).min(rest.len() as u64);
    &rest[..length as usize]
}
