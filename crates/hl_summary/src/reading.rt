//! A part that is read where it lies: nothing is copied, and no memory is taken.

ghost use Rattle.std.specs.Prelude.{◌≡◌, ◌<◌, ◌≤◌, ◌+◌, ◌-◌, ◌*◌, ◌↔◌, ℕ, All, Some, IsTrue, length, slice_get};
ghost use Rattle.hl_bytes.specs.Fields.{u32_at};
ghost use Rattle.hl_bytes.specs.Records.{block_records_at, table_records_at};
ghost use Rattle.hl_summary.specs.Parts.{HasRanges, Spells, summary_in, with_records};
ghost use Rattle.hl_summary.specs.Ranges.{IsBlockOf, IsChangeOf, IsPlace};
ghost use Rattle.hl_summary.specs.Reading.{HasFields, HasRecords, IsPlaced, IsSealedPart, IsTestedPart};

use crate::parts::{BLOCKS_AT, BLOCKS_MAX, Heading, MAGIC, TABLES_AT, TABLES_MAX};
use crate::ranges::{is_block_of, is_change_of, is_next_place, is_place};
use hl_addr::Geometry;
use hl_bytes::{
    BLOCK, BlockRecord, TableRecord, get_block_record, get_table_record, get_u32, get_u64,
    has_bytes, is_page_over, is_zero,
};

/// The number of block records, which is that of the blocks behind the summary.
pub fn block_count(part: &[u8]) -> u32
    requires { 4096 ≤ length part.now }
    ensures value { result ≡ length (summary_in part.now).blocks }
    ensures few { result ≤ 240 }
{
    get_u32(part, 28).min(BLOCKS_MAX as u32)
}

/// The number of table records.
pub fn table_count(part: &[u8]) -> u32
    requires { 4096 ≤ length part.now }
    ensures value { result ≡ length (summary_in part.now).tables }
    ensures few { result ≤ 80 }
{
    get_u32(part, 32).min(TABLES_MAX as u32)
}

/// Which block block `i` behind the summary is.
pub fn block_record(part: &[u8], i: u32) -> BlockRecord
    requires size { 4096 ≤ length part.now }
    requires within { i < length (summary_in part.now).blocks }
    ensures { slice_get (summary_in part.now).blocks i ≡ Some result }
{
    get_block_record(part, BLOCKS_AT + 8 * i as usize)
}

/// Change `i` of the tables.
pub fn table_record(part: &[u8], i: u32) -> TableRecord
    requires size { 4096 ≤ length part.now }
    requires within { i < length (summary_in part.now).tables }
    ensures { slice_get (summary_in part.now).tables i ≡ Some result }
{
    get_table_record(part, TABLES_AT + 24 * i as usize)
}

/// What the summary says besides its records.
#[tactic(auto, unfolding(crate::specs::Parts::summary_in))]
pub fn heading(part: &[u8]) -> Heading
    requires { 4096 ≤ length part.now }
    ensures { let s = summary_in part.now in with_records result s.blocks s.tables ≡ s }
{
    Heading {
        serial: get_u64(part, 8),
        next_seg: get_u32(part, 16),
        next_block: get_u32(part, 20),
        ends: get_u32(part, 24) == 1,
    }
}

/// Whether each of the first `count` block records is of a block of an inode, or of one of the table
/// blocks.
fn are_blocks_at(part: &[u8], count: usize, inodes: u32, tables: u32) -> bool
    requires { 40 + 8 * count ≤ length part.now }
    ensures { IsTrue result ↔ All (IsBlockOf inodes tables) (block_records_at 40 count part.now) }
{
    'each: for i in 0..count {
        let block = get_block_record(part, BLOCKS_AT + 8 * i);
        if !is_block_of(inodes, tables, &block) {
            return false;
        }
    }
    true
}

/// Whether each of the first `count` table records is one of the five changes of the tables.
fn are_changes_at(part: &[u8], count: usize, inodes: u32, slots: u32, volumes: u32) -> bool
    requires { 1960 + 24 * count ≤ length part.now }
    ensures { let changes = table_records_at 1960 count part.now in
        IsTrue result ↔ All (IsChangeOf inodes slots volumes) changes }
{
    'each: for i in 0..count {
        let change = get_table_record(part, TABLES_AT + 24 * i);
        if !is_change_of(inodes, slots, volumes, &change) {
            return false;
        }
    }
    true
}

/// Whether the bytes of the first `count` table records that are in no field are zeros.
fn has_gaps(part: &[u8], count: usize) -> bool
    requires { 1960 + 24 * count ≤ length part.now }
    ensures { IsTrue result ↔ ((i : ℕ) → i < count → u32_at (1972 + 24 * i) part.now ≡ 0) }
{
    'each: for i in 0..count {
        if get_u32(part, TABLES_AT + 12 + 24 * i) != 0 {
            return false;
        }
    }
    true
}

/// Whether each byte of the summary that is in no record is what the fields say, and each byte of
/// the table records that is in no field is zero.
fn has_fields(part: &[u8]) -> bool
    requires { 4096 ≤ length part.now }
    ensures { IsTrue result ↔ HasFields part.now }
{
    let blocks = get_u32(part, 28) as usize;
    let tables = get_u32(part, 32) as usize;
    has_bytes(part, 0, &MAGIC)
        && get_u32(part, 24) <= 1
        && blocks <= BLOCKS_MAX
        && tables <= TABLES_MAX
        && get_u32(part, 36) == 0
        && is_zero(part, BLOCKS_AT + 8 * blocks, TABLES_AT)
        && has_gaps(part, tables)
}

/// Whether each record is in its ranges.
fn has_records(part: &[u8], geometry: &Geometry) -> bool
    requires { 4096 ≤ length part.now }
    ensures { IsTrue result ↔ HasRecords geometry.now (summary_in part.now) }
{
    are_blocks_at(
        part,
        block_count(part) as usize,
        geometry.inodes,
        geometry.table_blocks(),
    ) && are_changes_at(
        part,
        table_count(part) as usize,
        geometry.inodes,
        geometry.slots(),
        geometry.volumes.items().len() as u32,
    )
}

/// Whether a part with so many blocks may stand at the place, with the part behind it at the next one.
fn is_placed(
    seg: u32,
    block: u32,
    blocks: u32,
    next_seg: u32,
    next_block: u32,
    geometry: &Geometry,
) -> bool
    ensures { IsTrue result ↔ IsPlaced geometry.now seg block blocks next_seg next_block }
{
    is_place(seg, block, geometry)
        && block as u64 + blocks as u64 + 1 <= geometry.k as u64
        && is_next_place(seg, block, blocks, next_seg, next_block, geometry)
}

/// Whether the fields are in their ranges, at the place on the site.
#[tactic(auto, unfolding(crate::specs::Parts::summary_in))]
fn has_ranges(part: &[u8], seg: u32, block: u32, geometry: &Geometry) -> bool
    requires { 4096 ≤ length part.now }
    ensures { IsTrue result ↔ HasRanges geometry.now seg block (summary_in part.now) }
{
    let blocks = block_count(part);
    let next_seg = get_u32(part, 16);
    let next_block = get_u32(part, 20);
    is_placed(seg, block, blocks, next_seg, next_block, geometry) && has_records(part, geometry)
}

/// Whether the summary is zero behind its records, and ends with the digest of it and of its blocks.
fn is_sealed(part: &[u8]) -> bool
    requires size { 4096 ≤ length part.now }
    requires blocks { 4096 * (1 + length (summary_in part.now).blocks) ≤ length part.now }
    ensures { IsTrue result ↔ IsSealedPart part.now }
{
    let whole = &part[..BLOCK * (1 + block_count(part) as usize)];
    is_page_over(whole, TABLES_AT + 24 * table_count(part) as usize)
}

/// Whether each test is passed of the bytes from the place to the segment's end.
fn is_tested(part: &[u8], seg: u32, block: u32, serial: u64, geometry: &Geometry) -> bool
    requires { length part.now ≡ 4096 * (geometry.now.k - block) }
    ensures { IsTrue result ↔ IsTestedPart geometry.now seg block serial part.now }
{
    is_place(seg, block, geometry)
        && has_fields(part)
        && get_u64(part, 8) == serial
        && has_ranges(part, seg, block, geometry)
        && is_sealed(part)
}

/// Whether a part of this serial is spelled at the place, where `part` runs from the place to the
/// segment's end. What stands at the fields' places is then its summary. It takes no memory, and
/// digests the part only where all else is right.
pub fn is_part(part: &[u8], seg: u32, block: u32, serial: u64, geometry: &Geometry) -> bool
    requires { length part.now ≡ 4096 * (geometry.now.k - block) }
    ensures { let s = summary_in part.now in
        IsTrue result ↔ Spells geometry.now seg block serial part.now s }
{
    is_tested(part, seg, block, serial, geometry)
}
