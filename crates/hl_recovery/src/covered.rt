//! How far the chain reaches in each segment, and the next tertiary serial behind it.

ghost use Rattle.std.specs.Prelude.{◌≡◌, ◌+◌, ◌≤◌, ℕ, All, IfOk, length, slice_index};
ghost use Rattle.std.specs.List.{fold};
ghost use Rattle.hl_addr.specs.Layout.{IsWithinLimits};
ghost use Rattle.hl_nodes.specs.Tables.{parts_raised, raised};
ghost use Rattle.hl_found.specs.Found.{parts_found};
ghost use Rattle.hl_recovery.specs.Covering.{LiesInLog, reach};

use hl_addr::Geometry;
use hl_bytes::TableRecord;
use hl_image::ChainPart;
use std::alloc::{AllocError, Global};

/// Of each segment from 0 to the log's last, the block behind the last one of a part in it, and 0
/// where it has none.
pub(crate) fn covered_segments(
    alloc: Global,
    geometry: &Geometry,
    chain: &[ChainPart],
) -> Result<Vec<u32>, AllocError>
    requires limits { IsWithinLimits geometry.now }
    requires parts { All (LiesInLog geometry.now) chain.now }
    ensures size { IfOk result (λ covered. length covered.items ≡ geometry.now.log + 1) }
    ensures reach { IfOk result (λ covered. (seg : ℕ) → seg ≤ geometry.now.log
        → slice_index covered.items seg ≡ fold (reach seg) 0 chain.now) }
{
    let mut covered = vec![in alloc; 0; geometry.log as usize + 1]?;
    'parts: for part in chain {
        let seg = part.seg as usize;
        let end = part.block + 1 + part.summary.blocks.items().len() as u32;
        covered[seg] = covered[seg].max(end);
    }
    Ok(covered)
}

/// The next tertiary serial behind a change of the tables.
fn raised(next: u64, change: &TableRecord) -> u64
    ensures { result ≡ raised next change.now }
{
    if change.kind == 2 {
        next.max(change.serial.saturating_add(1))
    } else {
        next
    }
}

/// The next tertiary serial behind changes of the tables.
fn raised_by(next: u64, changes: &[TableRecord]) -> u64
    ensures { result ≡ fold raised next changes.now }
{
    let mut raised_to = next;
    'changes: for change in changes {
        raised_to = raised(raised_to, change);
    }
    raised_to
}

/// The next tertiary serial behind the parts of a chain, by the record's before them.
pub(crate) fn raised_behind(next: u64, chain: &[ChainPart]) -> u64
    ensures { result ≡ parts_raised next (parts_found chain.now) }
{
    let mut raised_to = next;
    'parts: for part in chain {
        raised_to = raised_by(raised_to, part.summary.tables.items());
    }
    raised_to
}
