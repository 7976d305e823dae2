// Writing a base: what is asked in turn, each implication behind those before it.
ghost use Rattle.std.specs.Prelude.{◌≡◌, ◌+◌, ◌*◌, ◌≤◌, length, slice_set};
ghost use Rattle.bases.specs.Rows.{WrittenBase, WrittenPart};

use crate::has_context::HasContext;
use attributes::AttributeSet;
use contexts::Implication;
use premises::first_asked_from;

// Writes the base of what is forced to a row: how many attributes there are, the count, and the implications.
pub fn fill<F: HasContext>(forces: &F, base: &mut [u64])
    requires { 8194 ≤ length base.old }
    ensures { WrittenBase (F.Forces.width forces.now) (F.HasContext.objects forces.now) base.old base.new }
{
    let count = write_base(forces, &mut base[2..]);
    base[0] = u64::from(forces.count().get());
    base[1] = count as u64;
}

// Writes the base of what is forced, and returns its length. Each time it looks from the last premise on, since no set before it is open any more.
// It counts by hand: so many implications are read back, and there the next one is written.
fn write_base<F: HasContext>(forces: &F, part: &mut [u64]) -> usize
    requires { 8192 ≤ length part.old }
    ensures { WrittenPart (F.Forces.width forces.now) (F.HasContext.objects forces.now) result part.old part.new }
{
    let mut count = 0;
    let mut from = AttributeSet::empty();
    while let Some(asked) = first_asked_from(&part[..2 * count], forces, from) {
        put(part, count, asked);
        count += 1;
        from = asked.premise;
    }
    count
}

// Writes an implication at a place of a list. The exploration has the same two lines: to share them a function would have to be public, with a
// `requires`, and no public function has one.
fn put(part: &mut [u64], place: usize, implication: Implication)
    requires { 2 * place + 2 ≤ length part.old }
    ensures { part.new ≡ slice_set (slice_set part.old (2 * place) implication.premise.bits) (2 * place + 1) implication.conclusion.bits }
{
    part[2 * place] = u64::from(implication.premise);
    part[2 * place + 1] = u64::from(implication.conclusion);
}
