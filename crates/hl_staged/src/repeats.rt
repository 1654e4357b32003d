//! Numbers that stand twice in a list.

ghost use Rattle.std.specs.Prelude.{◌≡◌, ℕ, true, IfOk, MatchOption, nat_eq, ◌||◌, not};
ghost use Rattle.std.specs.Ordering.{nat_cmp};
ghost use Rattle.std.specs.BTreeSet.{contains};
ghost use Rattle.hl_staged.specs.Repeats.{AreOnce, IsRepeat};

use std::alloc::{AllocError, Global};
use std::collections::BTreeSet;

/// Puts a number into a set. False exactly where it is there already.
fn put(seen: &mut BTreeSet<u64>, number: u64) -> Result<bool, AllocError>
    ensures added { IfOk result (λ added. added ≡ not (contains nat_cmp seen.old number)) }
    ensures after { IfOk result (λ _. (other : ℕ)
        → contains nat_cmp seen.new other
        ≡ nat_eq number other || contains nat_cmp seen.old other) }
{
    Ok(seen.insert(number)?)
}

/// The first place whose number stands at an earlier one too. None exactly where no number stands
/// at two places.
pub(crate) fn first_repeat(
    alloc: Global,
    numbers: &[Option<u64>],
) -> Result<Option<usize>, AllocError>
    ensures { IfOk result
        (λ place. MatchOption place (AreOnce numbers.now) (IsRepeat numbers.now)) }
{
    let mut seen = BTreeSet::new(alloc);
    'places: for i in 0..numbers.len() {
        if let Some(number) = numbers[i] {
            if !put(&mut seen, number)? {
                return Ok(Some(i));
            }
        }
    }
    Ok(None)
}
