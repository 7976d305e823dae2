// Answers from bytes.
ghost use Rattle.std.specs.Prelude.{◌≡◌, IfOk};
ghost use Rattle.reading.specs.AnswerBytes.{numbers_in};

use crate::rows::set_number;
use std::alloc::{AllocError, Global};

// The answers that bytes stand for, two numbers each. A last odd byte gives an answer cut short.
pub fn answers_from(heap: Global, bytes: &[u8]) -> Result<Vec<u64>, AllocError>
    ensures { IfOk result (λ v. v.items ≡ numbers_in bytes.now) }
{
    let mut numbers = Vec::new(heap);
    let (answers, cut_short) = bytes.as_chunks::<2>();
    for [first, second] in answers {
        numbers.push(u64::from(first % 16))?;
        numbers.push(set_number([first / 16, *second]))?;
    }
    if let Some(first) = cut_short.first() {
        numbers.push(u64::from(first % 16))?;
    }
    Ok(numbers)
}
