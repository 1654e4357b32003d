//! A pointer block: the addresses of the blocks of a file that lie past its direct pointers.

ghost use Rattle.std.specs.Prelude.{◌≡◌, ◌<◌, length, slice_get, Some, slice_set};
ghost use Rattle.hl_inode.specs.Pointers.{pointers_of};

use hl_bytes::{get_u32, put_u32};

/// Pointer `i` of a pointer block.
pub fn pointer(block: &[u8], i: u32) -> u32
    requires size { length block.now ≡ 4096 }
    requires within { i < 1024 }
    ensures { slice_get (pointers_of block.now) i ≡ Some result }
{
    get_u32(block, 4 * i as usize)
}

/// Writes pointer `i` of a pointer block.
pub fn set_pointer(block: &mut [u8], i: u32, addr: u32)
    requires size { length block.old ≡ 4096 }
    requires within { i < 1024 }
    ensures { pointers_of block.new ≡ slice_set (pointers_of block.old) i addr }
{
    put_u32(block, 4 * i as usize, addr);
}
