// Beginning an exploration: the row that is lent for it, and what is written there.
ghost use Rattle.std.specs.Prelude.{◌≡◌, ◌≤◌, length, MatchResult};
ghost use Rattle.exploration.specs.Row.{opened, opening};

use crate::row::ROW_LENGTH;
use attributes::MOST_ATTRIBUTES;
use replies::Refusal;

// Whether a row can be opened for n attributes. It tests n as `AttributeCount` does, but has no use for one: what is written is n itself.
pub(crate) fn check_opening(known: &[u64], n: u64) -> Result<(), Refusal>
    ensures value { result ≡ opening n known.now }
    ensures cases { MatchResult result (λ _. (12291 ≤ length known.now) × (n ≤ 12)) (λ _. opened n known.now ≡ known.now) }
{
    if known.len() < ROW_LENGTH {
        return Err(Refusal::RowTooShort(known.len()));
    }
    if n > MOST_ATTRIBUTES {
        return Err(Refusal::TooManyAttributes);
    }
    Ok(())
}

// Writes that there are n attributes and that nothing is known.
pub(crate) fn begin(known: &mut [u64], n: u64)
    requires long { 12291 ≤ length known.old }
    requires few { n ≤ 12 }
    ensures { known.new ≡ opened n known.old }
{
    known[0] = n;
    known[1] = 0;
    known[2] = 0;
}
