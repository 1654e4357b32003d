//! Where addresses of the log lie.

ghost use Rattle.std.specs.Prelude.{◌≡◌, ◌/◌, ◌<◌};
ghost use Rattle.hl_tally.specs.Counting.{is_logged};

/// Whether an address lies in one of so many log segments of k blocks, which are numbered from 1 on.
pub(crate) fn is_logged(k: u32, segments: usize, address: u32) -> bool
    requires { 0 < k }
    ensures { result ≡ is_logged k segments address }
{
    let segment = address / k;
    1 <= segment && segment as usize <= segments
}
