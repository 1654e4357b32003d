//! Staged segments, which lie in lines of the disk.

ghost use Rattle.std.specs.Prelude.{◌≡◌, ◌<◌, ◌*◌, ◌≤◌, ◌↔◌, ℕ, length, IsTrue, IfOk};
ghost use Rattle.hl_bytes.specs.Buffers.{block_of};
ghost use Rattle.hl_tseg.specs.declared.slot.Slot.TheVariants.{Staged};
ghost use Rattle.hl_tseg.specs.Segments.{SegmentHead};
ghost use Rattle.hl_view.specs.Lines.{IsSegment};
ghost use Rattle.hl_nodes.specs.Lines.{line_bytes};
ghost use Rattle.hl_nodes.specs.Order.{HoldsLines};
ghost use Rattle.hl_found.specs.Staged.{HaveLines, HoldsSegment, HoldsStaged, lines_end};

use hl_addr::Geometry;
use hl_bytes::{BLOCK, SegBuf};
use hl_tseg::{Slot, TsegTable};
use hl_view::LineView;
use std::alloc::{AllocError, Global};

/// The bytes of a line of the image.
pub(crate) fn line_bytes<'a>(image: &'a [u8], geometry: &Geometry, line: u32) -> &'a [u8]
    requires image { 4096 * lines_end geometry.now ≤ length image.now }
    requires line { line < geometry.now.lines }
    ensures bytes { result.now ≡ line_bytes geometry.now (block_of image.now) line }
    ensures size { length result.now ≡ 4096 * geometry.now.k }
{
    let k = geometry.k as usize;
    let from = BLOCK * (k * (geometry.log as usize + 1 + line as usize));
    &image[from..from + BLOCK * k]
}

/// Puts these bytes, which are as many as the buffer has, into it.
fn fill(buffer: &mut SegBuf, bytes: &[u8])
    requires { length bytes.now ≡ length buffer.old }
    ensures { buffer.new ≡ bytes.now }
{
    let blocks = buffer.blocks();
    buffer.part_mut(0, blocks).copy_from_slice(bytes);
}

/// Whether the buffer is the segment of this serial.
fn is_segment(buffer: &SegBuf, serial: u64) -> bool
    ensures { IsTrue result ↔ ((head : SegmentHead) × IsSegment buffer.now serial head) }
{
    match LineView::open(buffer, serial) {
        Some(_) => true,
        None => false,
    }
}

/// Whether a line holds the segment of this serial. It copies the line.
fn holds_segment(
    alloc: Global,
    image: &[u8],
    geometry: &Geometry,
    line: u32,
    serial: u64,
) -> Result<bool, AllocError>
    requires image { 4096 * lines_end geometry.now ≤ length image.now }
    requires line { line < geometry.now.lines }
    ensures { let holds = HoldsSegment geometry.now (block_of image.now) line serial in
        IfOk result (λ r. IsTrue r ↔ holds) }
{
    let mut buffer = SegBuf::new(alloc, geometry.k)?;
    fill(&mut buffer, line_bytes(image, geometry, line));
    Ok(is_segment(&buffer, serial))
}

/// Whether the line of a slot holds its segment, where it is staged.
fn holds_staged(
    alloc: Global,
    image: &[u8],
    geometry: &Geometry,
    slot: Slot,
) -> Result<bool, AllocError>
    requires image { 4096 * lines_end geometry.now ≤ length image.now }
    requires line { (line serial : ℕ) → slot ≡ Staged line serial → line < geometry.now.lines }
    ensures { IfOk result (λ r. IsTrue r ↔ HoldsStaged geometry.now (block_of image.now) slot) }
{
    match slot {
        Slot::Staged { line, serial } => holds_segment(alloc, image, geometry, line, serial),
        _ => Ok(true),
    }
}

/// Whether the line of each slot that is staged holds its segment. The image has at least the
/// blocks up to the end of the lines. It copies and digests each such line.
pub fn lines_hold_segments(
    alloc: Global,
    image: &[u8],
    geometry: &Geometry,
    slots: &TsegTable,
) -> Result<bool, AllocError>
    requires image { 4096 * lines_end geometry.now ≤ length image.now }
    requires lines { HaveLines geometry.now.lines slots.now.slots }
    ensures { IfOk result (λ r. IsTrue r ↔ HoldsLines geometry.now (block_of image.now) slots.now) }
{
    let items = slots.items();
    'each: for n in 0..items.len() {
        if !holds_staged(alloc, image, geometry, items[n])? {
            return Ok(false);
        }
    }
    Ok(true)
}
