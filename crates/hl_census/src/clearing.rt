//! The clean segments.

ghost use Rattle.std.specs.Prelude.{◌≡◌, ◌↔◌, ◌+◌, ◌≤◌, ◌<◌, ℕ, List, IfOk, IsTrue, length};
ghost use Rattle.hl_media.specs.History.{Image};
ghost use Rattle.hl_addr.specs.Layout.{IsWithinLimits};
ghost use Rattle.hl_super.specs.declared.record.Record.{Record};
ghost use Rattle.hl_summary.specs.declared.parts.Summary.{Summary};
ghost use Rattle.hl_log.specs.Free.{AreClean};
ghost use Rattle.hl_tables.specs.Values.{TableValues};
ghost use Rattle.hl_nodes.specs.Sound.{head_of};
ghost use Rattle.hl_nodes.specs.Rooms.{AreCleanAtMount};
ghost use Rattle.hl_census.specs.Clearing.{AreEmptyBelow, IsEmptySegment};
ghost use Rattle.hl_nodes.specs.Covering.{IsCovered};
ghost use Rattle.hl_census.specs.Living.{AreLive};

use hl_addr::Geometry;
use hl_image::LogPlace;
use std::alloc::{AllocError, Global};

/// Whether the segment isn't the head's, and has neither a part nor a live block.
fn is_empty(at: LogPlace, covered: &[u32], live: &[u32], segment: u32) -> bool
    requires low { 1 ≤ segment }
    requires covered { segment < length covered.now }
    requires live { segment ≤ length live.now }
    ensures { IsTrue result ↔ IsEmptySegment at covered.now live.now segment }
{
    segment != at.seg && covered[segment as usize] == 0 && live[segment as usize - 1] == 0
}

/// The empty ones of the log's segments, in rising order.
fn empty_segments(
    alloc: Global,
    geometry: &Geometry,
    at: LogPlace,
    covered: &[u32],
    live: &[u32],
) -> Result<Vec<u32>, AllocError>
    requires covered { length covered.now ≡ geometry.now.log + 1 }
    requires live { length live.now ≡ geometry.now.log }
    ensures limits { IsWithinLimits geometry.now }
    ensures empty { IfOk result (λ clean.
        AreEmptyBelow at covered.now live.now (geometry.now.log + 1) clean.items) }
{
    let mut clean = Vec::new(alloc);
    'segments: for segment in 1..geometry.log + 1 {
        if is_empty(at, covered, live, segment) {
            clean.push(segment)?;
        }
    }
    Ok(clean)
}

/// The log segments that are clean at mount, in rising order: those that aren't the head's, and have neither a live block
/// nor a part of the chain.
pub fn clean(
    alloc: Global,
    geometry: &Geometry,
    at: LogPlace,
    covered: &[u32],
    live: &[u32],
) -> Result<Vec<u32>, AllocError>
    requires covered { length covered.now ≡ geometry.now.log + 1 }
    requires live { length live.now ≡ geometry.now.log }
    ensures of_log { IfOk result (λ clean. AreClean geometry.now at.seg clean.items) }
    ensures few { IfOk result (λ clean. length clean.items ≤ geometry.now.log) }
    ensures clean { IfOk result (λ clean. (image : Image) (rec : Record) (parts : List Summary)
        (t : TableValues) → at ≡ head_of rec parts → IsCovered geometry.now rec parts covered.now
        → AreLive geometry.now image rec t live.now
        → AreCleanAtMount geometry.now image rec parts t clean.items) }
{
    empty_segments(alloc, geometry, at, covered, live)
}
