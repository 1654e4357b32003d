//! The newest record of an image.

ghost use Rattle.std.specs.Prelude.{◌≡◌, ◌*◌, ◌≤◌, ◌↔◌, length, IsTrue, IfOk};
ghost use Rattle.hl_bytes.specs.Buffers.{block_of};
ghost use Rattle.hl_image.specs.Newest.{IsNewest, label_of};
ghost use Rattle.hl_image.specs.Places.{log_end};

use hl_addr::Geometry;
use hl_nodes::block_at;
use hl_super::{Label, Record, decode_record, newest};
use std::alloc::{AllocError, Global};

/// The label of a site.
pub(crate) fn label_of(geometry: &Geometry) -> Label
    ensures label { result ≡ label_of geometry.now }
    ensures records { 12288 ≤ 4096 * log_end geometry.now }
{
    Label {
        k: geometry.k,
        log: geometry.log,
        lines: geometry.lines,
        inodes: geometry.inodes,
    }
}

/// The newest record of the image, of those with the site's label. The image has at least the log's
/// segments.
pub fn newest_record(
    alloc: Global,
    image: &[u8],
    geometry: &Geometry,
) -> Result<Option<Record>, AllocError>
    requires { 4096 * log_end geometry.now ≤ length image.now }
    ensures { IfOk result (IsNewest geometry.now (block_of image.now)) }
{
    let label = label_of(geometry);
    let first = decode_record(alloc, block_at(image, 1), 1, &label)?;
    let second = decode_record(alloc, block_at(image, 2), 2, &label)?;
    Ok(newest(first, second))
}

/// Whether the record has the site's volumes.
pub fn has_volumes(rec: &Record, geometry: &Geometry) -> bool
    ensures { IsTrue result ↔ rec.now.volumes ≡ geometry.now.volumes }
{
    rec.volumes.items() == geometry.volumes.items()
}
