//! Whole buffers of segments.

ghost use Rattle.std.specs.Prelude.{◌≡◌, length, IfOk};
ghost use Rattle.hl_mem.specs.Tears.{torn_bytes};

use crate::tear::Tear;
use crate::tearing::leave;
use hl_bytes::SegBuf;
use std::alloc::{AllocError, Global};

/// The bytes of a buffer.
pub fn bytes_of(buffer: &SegBuf) -> &[u8]
    ensures { result.now ≡ buffer.now }
{
    buffer.part(0, buffer.blocks())
}

/// A buffer with these bytes.
pub fn copy_of(alloc: Global, from: &SegBuf) -> Result<SegBuf, AllocError>
    ensures { IfOk result (λ copy. copy ≡ from.now) }
{
    let mut copy = SegBuf::new(alloc, from.blocks())?;
    fill(&mut copy, bytes_of(from));
    Ok(copy)
}

/// Puts these bytes, which are as many as the buffer has, into it.
pub fn fill(buffer: &mut SegBuf, bytes: &[u8])
    requires { length bytes.now ≡ length buffer.old }
    ensures { buffer.new ≡ bytes.now }
{
    let blocks = buffer.blocks();
    buffer.part_mut(0, blocks).copy_from_slice(bytes);
}

/// Does a write of these bytes over the buffer's again, torn as it is.
pub fn tear_over(buffer: &mut SegBuf, bytes: &SegBuf, tear: Tear)
    requires { length bytes.now ≡ length buffer.old }
    ensures torn { buffer.new ≡ torn_bytes tear bytes.now buffer.old }
    ensures size { length buffer.new ≡ length buffer.old }
{
    let blocks = buffer.blocks();
    leave(tear, buffer.part_mut(0, blocks), bytes_of(bytes));
}
