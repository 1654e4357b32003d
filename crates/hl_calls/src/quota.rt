//! The quota of a site.

ghost use Rattle.std.specs.Prelude.{◌≡◌, ◌+◌, ◌≤◌, ℕ};
ghost use Rattle.hl_addr.specs.Layout.{quota};
ghost use Rattle.hl_store.specs.Values.{layout};
ghost use Rattle.hl_calls.specs.Growths as growths;
ghost use Rattle.hl_calls.specs.Growths.{Grows, exceeds};

use crate::growth::Growth;
use hl_media::Machine;
use hl_store::Store;

/// The blocks of a node that its inode points to itself.
const DIRECT: u32 = 12;

/// Whether a change of what the nodes are charged takes it above the quota of the site and makes it grow.
pub fn is_over<M: Machine>(store: &Store<M>, growth: &Growth) -> bool
    ensures { (after : ℕ) → Grows growth.now store.now.tally.charge after
        → result ≡ exceeds (quota (layout store.now)) store.now.tally.charge after }
{
    let before = store.charge() as u64 + growth.added as u64;
    let most = store.geometry().quota() as u64 + growth.removed as u64;
    growth.removed < growth.added && most < before
}

/// What a directory of so many bytes is charged, in blocks: its inode, its blocks, and its pointer block, if it has one.
pub fn directory_charge(size: usize) -> u32
    requires { size ≤ 4243456 }
    ensures { result ≡ growths.directory_charge size }
{
    let blocks = size.div_ceil(4_096) as u32;
    if DIRECT < blocks {
        blocks + 2
    } else {
        blocks + 1
    }
}
