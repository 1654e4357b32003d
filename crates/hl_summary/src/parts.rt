//! A part of the log.

ghost use Rattle.std.specs.Prelude.{◌≡◌, ◌≤◌, ◌+◌, ◌-◌, ◌*◌, ◌++◌, ◌↔◌, ℕ, List as Items, Some, IsNone, IfOk, length, take};
ghost use Rattle.hl_addr.specs.Layout.{Layout};
ghost use Rattle.hl_bytes.specs.Buffers.{part_of};
ghost use Rattle.hl_summary.specs.Parts.{Checks, HasFitting, HasRoom, Spells, ends_code, ends_of, part_bytes, summary_fields, summary_in, with_records};

use crate::reading::is_part;
use hl_addr::Geometry;
use hl_bytes::{
    BLOCK, BlockRecord, TableRecord, end_page_over, get_block_records, get_table_records, get_u32,
    get_u64, put_block_records, put_bytes, put_table_records, put_u32, put_u64, put_zeros,
};
use hl_tree::List;
use std::alloc::{AllocError, Global};

/// What a part of the log says of itself and of its blocks.
#[derive(Drop, PartialEq, Eq)]
pub struct Summary {
    /// One more than that of the part before.
    pub serial: u64,
    /// The log segment where the next part begins.
    pub next_seg: u32,
    /// The block of that segment where the next part begins.
    pub next_block: u32,
    /// Whether the part is the last one of its unit.
    pub ends: bool,
    /// Which blocks stand behind the summary, in their order, at most `BLOCKS_MAX`.
    pub blocks: List<BlockRecord>,
    /// The changes of the tables, in their order, at most `TABLES_MAX`.
    pub tables: List<TableRecord>,
}

/// What a summary says besides its records.
#[derive(Clone, Copy)]
pub struct Heading {
    pub serial: u64,
    pub next_seg: u32,
    pub next_block: u32,
    pub ends: bool,
}

pub(crate) const MAGIC: [u8; 8] = *b"HLPART01";

/// The most block records that have room in a summary, and so the most blocks of a part.
pub const BLOCKS_MAX: usize = 240;

/// The most table records that have room in a summary.
pub const TABLES_MAX: usize = 80;

/// Where the block records begin.
pub(crate) const BLOCKS_AT: usize = 40;

/// Where the table records begin.
pub(crate) const TABLES_AT: usize = 1_960;

fn ends_code(ends: bool) -> u32
    ensures { result ≡ ends_code ends }
{
    if ends { 1 } else { 0 }
}

/// Writes the fields of a summary.
#[tactic(auto, unfolding(crate::specs::Parts::summary_fields))]
fn put_fields(heading: Heading, blocks: &[BlockRecord], tables: &[TableRecord], out: &mut [u8])
    requires room { HasRoom (with_records heading blocks.now tables.now) }
    requires size { length out.old ≡ 4096 }
    ensures fields { let s = with_records heading blocks.now tables.now in
        take (1960 + 24 * length tables.now) out.new ≡ summary_fields s }
    ensures fitting { HasFitting (with_records heading blocks.now tables.now) }
{
    put_bytes(out, 0, &MAGIC);
    put_u64(out, 8, heading.serial);
    put_u32(out, 16, heading.next_seg);
    put_u32(out, 20, heading.next_block);
    put_u32(out, 24, ends_code(heading.ends));
    put_u32(out, 28, blocks.len() as u32);
    put_u32(out, 32, tables.len() as u32);
    put_zeros(out, 36, BLOCKS_AT);
    put_block_records(out, BLOCKS_AT, blocks);
    put_zeros(out, BLOCKS_AT + 8 * blocks.len(), TABLES_AT);
    put_table_records(out, TABLES_AT, tables);
}

/// Writes the summary of this heading and these records over the first block of a part whose other
/// blocks are in place, one for each block record, with the digest of them all. The records have
/// room in a summary; where it is the summary of a part at a place on a site, the part checks there.
/// It takes no memory.
pub fn seal_with(heading: Heading, blocks: &[BlockRecord], tables: &[TableRecord], part: &mut [u8])
    requires room { HasRoom (with_records heading blocks.now tables.now) }
    requires size { length part.old ≡ 4096 * (1 + length blocks.now) }
    ensures bytes { let s = with_records heading blocks.now tables.now in
        part.new ≡ part_bytes s (part_of part.old 1 (length blocks.now)) }
    ensures checks { Checks (with_records heading blocks.now tables.now) part.new }
{
    put_fields(heading, blocks, tables, &mut part[..BLOCK]);
    end_page_over(part, TABLES_AT + 24 * tables.len());
}

/// What a summary says besides its records.
fn heading_of(summary: &Summary) -> Heading
    ensures { with_records result summary.now.blocks summary.now.tables ≡ summary.now }
{
    Heading {
        serial: summary.serial,
        next_seg: summary.next_seg,
        next_block: summary.next_block,
        ends: summary.ends,
    }
}

/// Seals a part with a summary, as `seal_with` does.
pub fn seal(summary: &Summary, part: &mut [u8])
    requires room { HasRoom summary.now }
    requires size { length part.old ≡ 4096 * (1 + length summary.now.blocks) }
    ensures bytes { let behind = part_of part.old 1 (length summary.now.blocks) in
        part.new ≡ part_bytes summary.now behind }
    ensures checks { Checks summary.now part.new }
{
    let heading = heading_of(summary);
    seal_with(
        heading,
        summary.blocks.items(),
        summary.tables.items(),
        part,
    );
}

/// What stands at the fields' places; of each kind of records at most as many as have room.
#[tactic(auto, unfolding(crate::specs::Parts::summary_in))]
fn summary_in(alloc: Global, part: &[u8]) -> Result<Summary, AllocError>
    requires { 4096 ≤ length part.now }
    ensures { IfOk result (λ s. s ≡ summary_in part.now) }
{
    let blocks = (get_u32(part, 28) as usize).min(BLOCKS_MAX);
    let tables = (get_u32(part, 32) as usize).min(TABLES_MAX);
    Ok(Summary {
        serial: get_u64(part, 8),
        next_seg: get_u32(part, 16),
        next_block: get_u32(part, 20),
        ends: get_u32(part, 24) == 1,
        blocks: List::of(get_block_records(alloc, part, BLOCKS_AT, blocks)?),
        tables: List::of(get_table_records(alloc, part, TABLES_AT, tables)?),
    })
}

/// The summary of the part with this serial at a place, where `part` runs from the place to the
/// segment's end. None exactly where no part of the serial is spelled there; it takes memory only
/// where one is.
pub fn check(
    alloc: Global,
    part: &[u8],
    seg: u32,
    block: u32,
    serial: u64,
    geometry: &Geometry,
) -> Result<Option<Summary>, AllocError>
    requires { length part.now ≡ 4096 * (geometry.now.k - block) }
    ensures found { let Is = Spells geometry.now seg block serial part.now in
        IfOk result (λ r. (v : Summary) → (r ≡ Some v) ↔ Is v) }
    ensures none { let Is = Spells geometry.now seg block serial part.now in
        IfOk result (λ r. IsNone r ↔ ((v : Summary) → ¬ Is v)) }
{
    if !is_part(part, seg, block, serial, geometry) {
        return Ok(None);
    }
    let summary = summary_in(alloc, part)?;
    Ok(Some(summary))
}
