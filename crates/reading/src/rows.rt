// Contexts and lists read from bytes into rows.
ghost use Rattle.std.specs.Prelude.{◌≡◌, ℕ, ◌<◌, ◌∷◌, length, IfOk, MatchOption, slice_index};
ghost use Rattle.reading.specs.RowBytes.{ComputesNumber, SplitsList, behind, context_from, list_from, object_number, pair_numbers, set_number};

use std::alloc::{AllocError, Global};

// The number of a set in two bytes: its higher attributes, and the low eight.
pub(crate) fn set_number(pair: [u8; 2]) -> u64
    ensures { result ≡ set_number (slice_index pair 0) (slice_index pair 1) }
{
    u64::from(u16::from_be_bytes(pair))
}

// The number of an object in two bytes: 1 plus 16 times its higher attributes, and the low eight. Any other pair has an attribute that is not there.
fn object_number(pair: [u8; 2]) -> u64
    ensures { result ≡ object_number (slice_index pair 0) (slice_index pair 1) }
{
    let [high, low] = pair;
    if high % 16 == 1 {
        set_number([high / 16, low])
    } else {
        65536
    }
}

// The row with these two numbers and those of the pairs, by what a pair stands for.
fn row_of<F: Fn([u8; 2]) -> u64>(
    heap: Global,
    n: u8,
    count: usize,
    number: F,
    bytes: &[u8],
) -> Result<Vec<u64>, AllocError>
    requires { (f : _) (pair : _) → F.FnMut.pre f pair }
    ensures { (f : ℕ → ℕ → ℕ) → ComputesNumber (F.post number) f → IfOk result (λ v. v.items ≡ n ∷ (count ∷ pair_numbers f bytes.now)) }
{
    let mut row = vec![in heap; u64::from(n), count as u64]?;
    let (pairs, _) = bytes.as_chunks();
    row.extend(pairs.iter().copied().map(number))?;
    Ok(row)
}

// The row of a context, from a pair of bytes for each object.
pub fn context_from_bytes(heap: Global, n: u8, bytes: &[u8]) -> Result<Vec<u64>, AllocError>
    ensures { IfOk result (λ v. v.items ≡ context_from n bytes.now) }
{
    row_of(heap, n, bytes.len().div_ceil(2), object_number, bytes)
}

// The row of the list that begins these bytes: a pair for the count, and then two pairs for each implication.
pub fn list_from_bytes(heap: Global, n: u8, bytes: &[u8]) -> Result<Vec<u64>, AllocError>
    ensures { IfOk result (λ v. v.items ≡ list_from n bytes.now) }
{
    match split_list(bytes) {
        Some((count, list, _)) => row_of(heap, n, count, set_number, list),
        None => Ok(vec![in heap; u64::from(n)]?),
    }
}

// The bytes behind the list that begins these.
pub fn behind_list(bytes: &[u8]) -> &[u8]
    ensures { result.now ≡ behind bytes.now }
{
    split_list(bytes).map_or(&[], |(_, _, behind)| behind)
}

// The count of the list that begins these bytes, its implications' pairs and what is behind them; None without a whole count.
fn split_list(bytes: &[u8]) -> Option<(usize, &[u8], &[u8])>
    ensures { MatchOption result (length bytes.now < 2) (λ parts. SplitsList bytes.now parts.0 parts.1.now parts.2.now) }
{
    let (count, rest) = bytes.split_first_chunk()?;
    let count = usize::from(u16::from_be_bytes(*count));
    let (list, behind) = rest.split_at(rest.len().min(4 * count));
    Some((count, list, behind))
}
