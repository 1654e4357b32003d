//! A count of failures.

ghost use Rattle.std.specs.Prelude.{◌≤◌};
ghost use Rattle.hl_media.specs.Causes.{Rose};

/// One failure more. The count stands still at its greatest value.
pub fn raise(count: &mut u64)
    ensures later { count.old ≤ count.new }
    ensures rose { Rose count.old count.new }
{
    *count = count.saturating_add(1);
}
