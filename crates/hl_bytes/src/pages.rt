//! Blocks of fields, in which all else is zero.

ghost use Rattle.std.specs.Prelude.{◌≡◌, ◌≤◌, ◌↔◌, IsTrue, length, take, drop};
ghost use Rattle.hl_bytes.specs.Pages.{page, page_over, plain_page};

use crate::fields::{is_zero, put_zeros};
use crate::sealing::{is_sealed_over, seal, seal_over};

/// Ends a block whose fields stand before `end`: zeros, and the digest.
pub fn end_page(block: &mut [u8], end: usize)
    requires size { length block.old ≡ 4096 }
    requires within { end ≤ 4064 }
    ensures { block.new ≡ page (take end block.old) }
{
    put_zeros(block, end, 4064);
    seal(block);
}

/// Ends the first block, whose fields stand before `end`: zeros, and the digest of it and of all
/// blocks behind it.
pub fn end_page_over(bytes: &mut [u8], end: usize)
    requires size { 4096 ≤ length bytes.old }
    requires within { end ≤ 4064 }
    ensures { bytes.new ≡ page_over (take end bytes.old) (drop 4096 bytes.old) }
{
    put_zeros(bytes, end, 4064);
    seal_over(bytes);
}

/// Whether the first block is zero from `end` on, and ends with the digest of it and of all blocks
/// behind it.
pub fn is_page_over(bytes: &[u8], end: usize) -> bool
    requires size { 4096 ≤ length bytes.now }
    requires within { end ≤ 4064 }
    ensures { IsTrue result ↔ (bytes.now ≡ page_over (take end bytes.now) (drop 4096 bytes.now)) }
{
    is_zero(bytes, end, 4064) && is_sealed_over(bytes)
}

/// Ends a block whose fields stand before `end` by zeros.
pub fn end_plain_page(block: &mut [u8], end: usize)
    requires size { length block.old ≡ 4096 }
    requires within { end ≤ 4096 }
    ensures { block.new ≡ plain_page (take end block.old) }
{
    put_zeros(block, end, 4096);
}
