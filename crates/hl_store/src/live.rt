//! The number of live blocks of each log segment.

ghost use Rattle.std.specs.Prelude.{◌≡◌, ◌<◌, ◌^◌, length};
ghost use Rattle.hl_tally.specs.Counting.{added, is_logged, removed};

/// Whether an address lies in one of so many log segments of k blocks, which are numbered from 1 on.
pub(crate) fn is_logged(k: u32, segments: usize, addr: u32) -> bool
    requires { 0 < k }
    ensures { result ≡ is_logged k segments addr }
{
    let segment = addr / k;
    1 <= segment && segment as usize <= segments
}

/// A block at an address is live from now on.
pub(crate) fn add_live(k: u32, live: &mut [u32], addr: u32)
    requires { 0 < k }
    ensures { live.new ≡ added k live.old addr }
{
    if is_logged(k, live.len(), addr) {
        let place = (addr / k) as usize - 1;
        live[place] = live[place].saturating_add(1);
    }
}

/// A block at an address isn't live any more.
pub(crate) fn remove_live(k: u32, live: &mut [u32], addr: u32)
    requires { 0 < k }
    ensures { live.new ≡ removed k live.old addr }
{
    if is_logged(k, live.len(), addr) {
        let place = (addr / k) as usize - 1;
        live[place] = live[place].saturating_sub(1);
    }
}
