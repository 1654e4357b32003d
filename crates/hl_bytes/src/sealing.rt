//! The digest at the end of a block.

ghost use Rattle.std.specs.Prelude.{◌≡◌, ◌≤◌, ◌↔◌, ◌++◌, IsTrue, length, take, drop};
ghost use Rattle.sha2.specs.Sha256.{sha256};
ghost use Rattle.hl_bytes.specs.Sealing.{sealed, sealed_over};

use crate::fields::{has_bytes, put_bytes};
use sha2::{Digest, Sha256};

/// Writes the digest of the block's first 4,064 bytes behind them.
pub fn seal(block: &mut [u8])
    requires { length block.old ≡ 4096 }
    ensures { block.new ≡ sealed (take 4064 block.old) }
{
    let digest = Sha256::digest(&block[..4064]);
    block[4064..].copy_from_slice(&digest);
}

/// The digest of a block and of those behind it, without the digest's own place.
fn digest_over(bytes: &[u8]) -> [u8; 32]
    requires { 4096 ≤ length bytes.now }
    ensures { result ≡ sha256 (take 4064 bytes.now ++ drop 4096 bytes.now) }
{
    let mut hasher = Sha256::new();
    hasher.update(&bytes[..4064]);
    hasher.update(&bytes[4096..]);
    hasher.finalize()
}

/// Ends the first block with the digest of its first 4,064 bytes and of all blocks behind it.
pub fn seal_over(bytes: &mut [u8])
    requires { 4096 ≤ length bytes.old }
    ensures { bytes.new ≡ sealed_over (take 4064 bytes.old) (drop 4096 bytes.old) }
{
    let digest = digest_over(bytes);
    put_bytes(bytes, 4064, &digest);
}

/// Whether the first block ends with the digest of its first 4,064 bytes and of all blocks behind it.
pub fn is_sealed_over(bytes: &[u8]) -> bool
    requires { 4096 ≤ length bytes.now }
    ensures { IsTrue result ↔ (bytes.now ≡ sealed_over (take 4064 bytes.now) (drop 4096 bytes.now)) }
{
    has_bytes(bytes, 4064, &digest_over(bytes))
}
