//! The bytes of one part.

ghost use Rattle.std.specs.Prelude.{◌≡◌, ◌≤◌, ◌<◌, ◌+◌, ◌-◌, ◌*◌, ◌++◌, ◌^◌, length, take, drop};
ghost use Rattle.hl_summary.specs.Parts.{with_records};
ghost use Rattle.hl_log.specs.Batches.{IsPartWhereItMay, longest_part};
ghost use Rattle.hl_log.specs.Loads.{contents_of, records_of};
ghost use Rattle.hl_log.specs.Steps.{own_blocks};

use crate::load::Load;
use hl_addr::Geometry;
use hl_bytes::{BLOCK, BlockRecord, TableRecord, put_bytes};
use hl_summary::{BLOCKS_MAX, Heading, seal_with};

/// The blocks of the longest part of a site: a summary and all that it may describe, or a whole segment.
pub(crate) fn longest_part(geometry: &Geometry) -> u32
    ensures { result ≡ longest_part geometry.now }
{
    geometry.k.min(BLOCKS_MAX as u32 + 1)
}

/// Puts the blocks of a part behind its summary: those of the load from `first` on.
fn put_blocks(load: &Load, first: usize, count: usize, out: &mut [u8])
    requires within { first + count ≤ length (contents_of load.now) }
    requires few { length (contents_of load.now) < 2 ^ 32 }
    requires size { length out.old ≡ 4096 * (1 + count) }
    ensures { own_blocks out.new count ≡ take count (drop first (contents_of load.now)) }
{
    'put: for i in 0..count {
        put_bytes(out, BLOCK * (1 + i), load.bytes(first + i));
    }
}

/// The block records of a part, which stand first: those of the load from `first` on.
fn records_from(load: &Load, first: usize, count: usize) -> [BlockRecord; BLOCKS_MAX]
    requires within { first + count ≤ length (records_of load.now) }
    requires few { length (records_of load.now) < 2 ^ 32 }
    requires most { count ≤ 240 }
    ensures { take count result ≡ take count (drop first (records_of load.now)) }
{
    let mut records = [BlockRecord { ino: 0, index: 0 }; BLOCKS_MAX];
    'taken: for i in 0..count {
        records[i] = load.record(first + i);
    }
    records
}

/// Makes the bytes of a part: its summary, and behind it the blocks of the load from `first` on.
pub(crate) fn fill(
    heading: Heading,
    load: &Load,
    first: usize,
    count: usize,
    tables: &[TableRecord],
    out: &mut [u8],
)
    requires within { first + count ≤ length (records_of load.now) }
    requires both { length (contents_of load.now) ≡ length (records_of load.now) }
    requires few { length (records_of load.now) < 2 ^ 32 }
    requires most { count ≤ 240 }
    requires changes { length tables.now ≤ 80 }
    requires size { length out.old ≡ 4096 * (1 + count) }
    ensures part { let records = take count (drop first (records_of load.now)) in
        IsPartWhereItMay (with_records heading records tables.now) out.new }
    ensures blocks { own_blocks out.new count ≡ take count (drop first (contents_of load.now)) }
{
    put_blocks(load, first, count, out);
    let records = records_from(load, first, count);
    seal_with(heading, &records[..count], tables, out);
}
