//! The limits of a site, and the room that its tables take.

ghost use Rattle.std.specs.Prelude.{◌≡◌, ◌≤◌, ◌↔◌, All, IsTrue, length, sum};
ghost use Rattle.hl_addr.specs.Layout.{IsInodeCount, IsLogCount, IsSlotCount, IsWithinLimits, table_blocks_of};

use crate::slots::{are_slot_counts, slot_count};

/// The blocks that the tables of a site fill: the inode map, the states of the log segments, the
/// tertiary table and the volume table, each filled up to whole blocks (`docs/FORMATS.md`,
/// "Tables"). `volumes` has the slots of each volume.
#[tactic(auto, unfolding(crate::specs::Layout::table_blocks_of))]
pub fn table_blocks_for(log: u32, inodes: u32, volumes: &[u32]) -> u32
    requires log { IsLogCount log }
    requires inodes { IsInodeCount inodes }
    requires volumes { length volumes.now ≤ 32 }
    requires slots { All IsSlotCount volumes.now }
    ensures { result ≡ table_blocks_of log inodes (sum volumes.now) }
{
    (4 * inodes).div_ceil(4096)
        + (4 * log).div_ceil(4096)
        + (16 * slot_count(volumes)).div_ceil(4096)
        + 1
}

/// Whether these numbers make a site within the limits (`docs/FORMATS.md`, "Site file"): `k` blocks
/// of a segment, `log` segments of the log, `lines` lines, `inodes` numbers from 0 on, and the slots
/// of each volume, with tables that fill at most half a segment.
pub fn is_within_limits(k: u32, log: u32, lines: u32, inodes: u32, volumes: &[u32]) -> bool
    ensures { IsTrue result ↔ IsWithinLimits (record { k = k; log = log; lines = lines; inodes = inodes; volumes = volumes.now }) }
{
    let counts_fit = matches!(k, 64 | 128 | 256 | 512)
        && (16..=4096).contains(&log)
        && (13..=256).contains(&lines)
        && (2..=2048).contains(&inodes)
        && (1..=32).contains(&volumes.len())
        && are_slot_counts(volumes);
    counts_fit && table_blocks_for(log, inodes, volumes) <= k / 2
}
