//! Tertiary segments of one block.

use hl_bytes::{BLOCK, BlockRecord, SegBuf, is_zero};
use hl_view::seal_line;

/// Seals a buffer as the segment of a serial whose one block is block 1, where it has that block and only zeros behind it.
pub(crate) fn seal_one(buf: &mut SegBuf, serial: u64, record: BlockRecord) {
    let blocks = buf.blocks();
    if blocks < 2 {
        return;
    }
    if !is_zero(buf.part(0, blocks), 2 * BLOCK, BLOCK * blocks as usize) {
        return;
    }
    seal_line(buf, serial, &[record]);
}
