//! Whether the rack is the one of a record.

ghost use Rattle.std.specs.Prelude.{◌≡◌, ◌<◌, ◌≤◌, ◌^◌, length, slice_index, MatchOption};
ghost use Rattle.hl_recovery.specs.Racks.{DifferFirstAt};

/// The first volume whose slots differ or that one of both lacks, if there is one.
pub(crate) fn first_other(volumes: &[u32], rack: &[u32]) -> Option<u32>
    requires { length volumes.now < 2 ^ 32 }
    ensures { MatchOption result (rack.now ≡ volumes.now) (DifferFirstAt volumes.now rack.now) }
{
    'volumes: for i in 0..volumes.len() {
        if i >= rack.len() || rack[i] != volumes[i] {
            return Some(i as u32);
        }
    }
    if rack.len() > volumes.len() {
        return Some(volumes.len() as u32);
    }
    None
}

/// The slots that a rack has of a volume, 0 where it lacks it.
pub(crate) fn slots_of(rack: &[u32], volume: u32) -> u32
    ensures { result ≡ slice_index rack.now volume }
{
    if (volume as usize) < rack.len() {
        rack[volume as usize]
    } else {
        0
    }
}
