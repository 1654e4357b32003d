//! The record of a dump, which is the disk's block 1 or 2.

ghost use Rattle.std.specs.Prelude.{◌≡◌, ◌≤◌, ◌↔◌, Some, IsNone, IsTrue, length};
ghost use Rattle.hl_disk.specs.Records.{Spells, place_of, record_bytes, record_in};

use crate::place::place_of;
use hl_bytes::{BLOCK, end_page, get_u32, get_u64, put_bytes, put_u32, put_u64};

/// Which dump stands in a half of the disk.
#[derive(Clone, Copy, Debug, PartialEq, Eq)]
pub struct DumpRecord {
    /// From 1; the greater one of two records is the newer.
    pub number: u64,
    /// The bytes of the dump.
    pub length: u32,
    /// The SHA-256 of the dump.
    pub digest: [u8; 32],
}

const MAGIC: [u8; 8] = *b"HLDUMP01";

/// Writes the one spelling of a record over a block.
#[tactic(auto, unfolding(crate::specs::Records::record_bytes))]
pub fn encode_record(rec: &DumpRecord, out: &mut [u8])
    requires size { length out.old ≡ 4096 }
    ensures bytes { out.new ≡ record_bytes rec.now }
{
    put_bytes(out, 0, &MAGIC);
    put_u64(out, 8, rec.number);
    put_u32(out, 16, rec.length);
    put_bytes(out, 20, &rec.digest);
    end_page(out, 52);
}

/// What stands at the fields' places.
#[tactic(auto, unfolding(crate::specs::Records::record_in))]
fn record_in(block: &[u8]) -> DumpRecord
    requires { length block.now ≡ 4096 }
    ensures { result ≡ record_in block.now }
{
    let mut digest = [0; 32];
    digest.copy_from_slice(&block[20..52]);
    DumpRecord {
        number: get_u64(block, 8),
        length: get_u32(block, 16),
        digest,
    }
}

/// Whether the block spells the record, which belongs into the disk's block `at`.
fn is_spelled(rec: &DumpRecord, at: u32, block: &[u8]) -> bool
    requires { length block.now ≡ 4096 }
    ensures { IsTrue result ↔ ((1 ≤ rec.now.number) × (place_of rec.now.number ≡ at) × (block.now ≡ record_bytes rec.now)) }
{
    let mut own = [0; BLOCK];
    encode_record(rec, &mut own);
    1 <= rec.number && place_of(rec.number) == at && block == own.as_slice()
}

/// The record that the disk's block `at` spells, and none exactly where it spells no record. Odd numbers stand in
/// block 1, even ones in block 2.
pub fn decode_record(block: &[u8], at: u32) -> Option<DumpRecord>
    requires { length block.now ≡ 4096 }
    ensures found { (v : DumpRecord) → (result ≡ Some v) ↔ Spells at block.now v }
    ensures none { IsNone result ↔ ((v : DumpRecord) → ¬ Spells at block.now v) }
{
    let rec = record_in(block);
    if is_spelled(&rec, at, block) {
        Some(rec)
    } else {
        None
    }
}
