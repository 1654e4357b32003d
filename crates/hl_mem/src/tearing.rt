//! The tearing of a write.

ghost use Rattle.std.specs.Prelude.{◌≡◌, length};
ghost use Rattle.hl_mem.specs.Tears.{torn_bytes};

use crate::tear::Tear;

/// Leaves in the range, which is as long as the bytes, what this tear makes of a write of them.
pub fn leave(tear: Tear, range: &mut [u8], bytes: &[u8])
    requires { length range.old ≡ length bytes.now }
    ensures { range.new ≡ torn_bytes tear bytes.now range.old }
{
    match tear {
        Tear::Old => {}
        Tear::New => range.copy_from_slice(bytes),
        Tear::Prefix(count) => {
            let count = bytes.len().min(count as usize);
            range[..count].copy_from_slice(&bytes[..count]);
        }
        Tear::Filled(byte) => range.fill(byte),
    }
}
