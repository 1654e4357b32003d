//! A checkpoint record, which is the disk's block 1 or 2.

ghost use Rattle.std.specs.Prelude.{◌≡◌, ◌≤◌, ◌<◌, ◌+◌, ◌-◌, ◌*◌, ◌/◌, ◌%◌, ◌^◌, ◌++◌, ◌↔◌, ℕ, Some, IsNone, IsTrue, IfOk, length, take};
ghost use Rattle.hl_addr.specs.Layout.{IsWithinLimits, table_blocks};
ghost use Rattle.std.specs.List.{AllByRecursion};
ghost use Rattle.hl_bytes.specs.Runs.{numbers32, u32s_at};
ghost use Rattle.hl_super.specs.Labels.{IsLabel, layout_of};
ghost use Rattle.hl_super.specs.declared.label.Label.{Label};
ghost use Rattle.hl_super.specs.Newest.{newest};
ghost use Rattle.hl_super.specs.Records.{HasRanges, HasRoom, IsRecord, Spells, record_bytes, record_in};

use crate::label::Label;
use hl_addr::{Numbers, is_within_limits, table_blocks_for};
use hl_bytes::{
    BLOCK, end_page, get_numbers, get_u32, get_u64, put_bytes, put_numbers, put_u32, put_u64,
    put_zeros,
};
use std::alloc::{AllocError, Global};

/// Where a mount starts.
#[derive(Debug, Drop, PartialEq, Eq)]
pub struct Record {
    /// From 1; the greater one of two records is the newer.
    pub number: u64,
    /// The serial of the next part of the log.
    pub serial: u64,
    /// The log segment of the next part, from 1.
    pub seg: u32,
    /// The block of that segment where the next part begins, at most K - 2.
    pub block: u32,
    /// The serial of the next tertiary segment, from 1.
    pub tseg_serial: u64,
    /// 1 for the formats that are described here.
    pub format: u32,
    /// The slots of each volume.
    pub volumes: Numbers,
    /// The addresses of the table blocks.
    pub tables: Numbers,
}

const MAGIC: [u8; 8] = *b"HLRECRD1";

/// The most volumes that have room in a record.
const VOLUMES_MAX: u32 = 32;

/// The most table blocks of a site, which is half of the longest segment.
const TABLES_MAX: u32 = 256;

/// Writes numbers in a row, from `at` on.
fn put_list(out: &mut [u8], at: usize, numbers: &[u32])
    requires { at + 4 * length numbers.now ≤ length out.old }
    ensures front { take (at + 4 * length numbers.now) out.new ≡ take at out.old ++ numbers32 numbers.now }
    ensures size { length out.new ≡ length out.old }
    ensures fit { AllByRecursion (λ n. n < 2 ^ 32) numbers.now }
{
    put_numbers(out, at, numbers);
}

/// Writes the fields, zeros behind them, and the digest.
#[tactic(auto, unfolding(crate::specs::Records::record_bytes))]
fn put_record(rec: &Record, out: &mut [u8])
    requires room { HasRoom rec.now }
    requires size { length out.old ≡ 4096 }
    ensures bytes { out.new ≡ record_bytes rec.now }
    ensures value { (at : ℕ) (label : Label) → HasRanges at label rec.now
        → IsRecord at label rec.now }
{
    let volumes = rec.volumes.items();
    let tables = rec.tables.items();
    put_bytes(out, 0, &MAGIC);
    put_u64(out, 8, rec.number);
    put_u64(out, 16, rec.serial);
    put_u32(out, 24, rec.seg);
    put_u32(out, 28, rec.block);
    put_u64(out, 32, rec.tseg_serial);
    put_u32(out, 40, rec.format);
    put_u32(out, 44, volumes.len() as u32);
    put_list(out, 48, volumes);
    put_zeros(out, 48 + 4 * volumes.len(), 176);
    put_u32(out, 176, tables.len() as u32);
    put_list(out, 180, tables);
    end_page(out, 180 + 4 * tables.len());
}

/// Writes the one spelling of a record over a block. Its lists have room there; where the record is
/// one of a label, its block is read as this record under that label.
pub fn encode_record(rec: &Record, out: &mut [u8])
    requires room { HasRoom rec.now }
    requires size { length out.old ≡ 4096 }
    ensures bytes { out.new ≡ record_bytes rec.now }
    ensures spelled { (at : ℕ) (label : Label) → HasRanges at label rec.now
        → Spells at label out.new rec.now }
{
    put_record(rec, out);
}

/// The numbers from a place on.
fn numbers_at(alloc: Global, block: &[u8], at: usize, count: usize) -> Result<Numbers, AllocError>
    requires { at + 4 * count ≤ length block.now }
    ensures { IfOk result (λ n. n ≡ u32s_at at count block.now) }
{
    let mut numbers = vec![in alloc; 0; count]?;
    get_numbers(block, at, numbers.as_mut_slice());
    Ok(Numbers::of(numbers))
}

/// What stands at the fields' places; of each list at most as many numbers as have room.
#[tactic(auto, unfolding(crate::specs::Records::record_in))]
fn record_in(alloc: Global, block: &[u8]) -> Result<Record, AllocError>
    requires { length block.now ≡ 4096 }
    ensures { IfOk result (λ r. r ≡ record_in block.now) }
{
    let volumes = numbers_at(
        alloc,
        block,
        48,
        get_u32(block, 44).min(VOLUMES_MAX) as usize,
    )?;
    let tables = numbers_at(
        alloc,
        block,
        180,
        get_u32(block, 176).min(TABLES_MAX) as usize,
    )?;
    Ok(Record {
        number: get_u64(block, 8),
        serial: get_u64(block, 16),
        seg: get_u32(block, 24),
        block: get_u32(block, 28),
        tseg_serial: get_u64(block, 32),
        format: get_u32(block, 40),
        volumes,
        tables,
    })
}

/// Whether the label and these volumes make a site within the limits, whose tables fill so many
/// blocks.
fn is_site(label: &Label, volumes: &[u32], tables: usize) -> bool
    ensures { IsTrue result ↔ (IsWithinLimits (layout_of label.now volumes.now) × (tables ≡ table_blocks (layout_of label.now volumes.now))) }
{
    is_within_limits(label.k, label.log, label.lines, label.inodes, volumes)
        && tables == table_blocks_for(label.log, label.inodes, volumes) as usize
}

/// Whether a record of this number stands in block 1, for an odd one, or block 2.
fn is_block_of(number: u64, at: u32) -> bool
    ensures { IsTrue result ↔ (2 - number % 2 ≡ at) }
{
    2 - number % 2 == at as u64
}

/// Whether the fields are in their ranges.
fn has_ranges(rec: &Record, at: u32, label: &Label) -> bool
    ensures { IsTrue result ↔ HasRanges at label.now rec.now }
{
    1 <= rec.number
        && is_block_of(rec.number, at)
        && 1 <= rec.seg
        && rec.seg <= label.log
        && rec.block as u64 + 2 <= label.k as u64
        && 1 <= rec.tseg_serial
        && rec.format == 1
        && is_site(label, rec.volumes.items(), rec.tables.items().len())
}

/// Whether the block spells the record.
fn is_spelled(rec: &Record, at: u32, label: &Label, block: &[u8]) -> bool
    requires room { HasRoom rec.now }
    requires size { length block.now ≡ 4096 }
    ensures { IsTrue result ↔ (HasRanges at label.now rec.now × (block.now ≡ record_bytes rec.now)) }
{
    let mut own = [0; BLOCK];
    put_record(rec, &mut own);
    has_ranges(rec, at, label) && block == own.as_slice()
}

/// The record of a label that the disk's block `at` spells, and none exactly where it spells no
/// record. Odd numbers stand in block 1, even ones in block 2.
pub fn decode_record(
    alloc: Global,
    block: &[u8],
    at: u32,
    label: &Label,
) -> Result<Option<Record>, AllocError>
    requires { length block.now ≡ 4096 }
    ensures found { IfOk result (λ r. (v : Record) → (r ≡ Some v) ↔ Spells at label.now block.now v) }
    ensures none { IfOk result (λ r. IsNone r ↔ ((v : Record) → ¬ Spells at label.now block.now v)) }
{
    let rec = record_in(alloc, block)?;
    if is_spelled(&rec, at, label, block) {
        Ok(Some(rec))
    } else {
        Ok(None)
    }
}

/// The record with the greater number, and the first where both have the same. None exactly where
/// there is neither.
pub fn newest(a: Option<Record>, b: Option<Record>) -> Option<Record>
    ensures value { result ≡ newest a b }
    ensures none { IsNone result ↔ (IsNone a × IsNone b) }
    ensures no_newer_first { (v w : Record) → a ≡ Some v → result ≡ Some w → v.number ≤ w.number }
    ensures no_newer_second { (v w : Record) → b ≡ Some v → result ≡ Some w → v.number ≤ w.number }
    ensures first_of_equals { (v w : Record) → a ≡ Some v → b ≡ Some w → w.number ≤ v.number → result ≡ a }
{
    match (a, b) {
        (Some(first), Some(second)) => {
            if first.number < second.number {
                Some(second)
            } else {
                Some(first)
            }
        }
        (Some(first), None) => Some(first),
        (None, other) => other,
    }
}
