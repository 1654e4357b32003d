//! The records of a summary: which blocks it describes, and which changes of the tables.

ghost use Rattle.std.specs.Prelude.{◌≡◌, ◌≤◌, ◌+◌, ◌*◌, ◌++◌, IfOk, length, take};
ghost use Rattle.std.specs.List.{AllByRecursion};
ghost use Rattle.hl_bytes.specs.Fields.{written};
ghost use Rattle.hl_bytes.specs.Records.{IsBlockRecord, IsTableRecord, block_record_bytes, table_record_bytes, block_record_at, table_record_at, block_records_bytes, table_records_bytes, block_records_at, table_records_at};

use crate::fields::{get_u32, get_u64, put_u32, put_u64, put_zeros};
use std::alloc::{AllocError, Global};

/// Which block of the log or of a tertiary segment this is: its inode, and its index there.
#[derive(Clone, Copy, Debug, PartialEq, Eq)]
pub struct BlockRecord {
    pub ino: u32,
    pub index: u32,
}

/// A change of the tables: what kind, of what, and with which serial.
#[derive(Clone, Copy, Debug, PartialEq, Eq)]
pub struct TableRecord {
    pub kind: u32,
    pub a: u32,
    pub b: u32,
    pub serial: u64,
}

/// The block record in the eight bytes from `at` on.
#[tactic(auto, unfolding(crate::specs::Records::block_record_at))]
pub fn get_block_record(bytes: &[u8], at: usize) -> BlockRecord
    requires { at + 8 ≤ length bytes.now }
    ensures { result ≡ block_record_at at bytes.now }
{
    BlockRecord {
        ino: get_u32(bytes, at),
        index: get_u32(bytes, at + 4),
    }
}

/// Writes a block record into the eight bytes from `at` on.
pub fn put_block_record(bytes: &mut [u8], at: usize, block: &BlockRecord)
    requires { at + 8 ≤ length bytes.old }
    ensures bytes { bytes.new ≡ written bytes.old at (block_record_bytes block.now) }
    ensures fits { IsBlockRecord block.now }
{
    put_u32(bytes, at, block.ino);
    put_u32(bytes, at + 4, block.index);
}

/// The table record in the 24 bytes from `at` on; the four bytes from `at + 12` on are no field.
#[tactic(auto, unfolding(crate::specs::Records::table_record_at))]
pub fn get_table_record(bytes: &[u8], at: usize) -> TableRecord
    requires { at + 24 ≤ length bytes.now }
    ensures { result ≡ table_record_at at bytes.now }
{
    TableRecord {
        kind: get_u32(bytes, at),
        a: get_u32(bytes, at + 4),
        b: get_u32(bytes, at + 8),
        serial: get_u64(bytes, at + 16),
    }
}

/// Writes a table record into the 24 bytes from `at` on.
pub fn put_table_record(bytes: &mut [u8], at: usize, change: &TableRecord)
    requires { at + 24 ≤ length bytes.old }
    ensures bytes { bytes.new ≡ written bytes.old at (table_record_bytes change.now) }
    ensures fits { IsTableRecord change.now }
{
    put_u32(bytes, at, change.kind);
    put_u32(bytes, at + 4, change.a);
    put_u32(bytes, at + 8, change.b);
    put_zeros(bytes, at + 12, at + 16);
    put_u64(bytes, at + 16, change.serial);
}

/// Writes block records one after the other from `at` on.
pub fn put_block_records(bytes: &mut [u8], at: usize, blocks: &[BlockRecord])
    requires { at + 8 * length blocks.now ≤ length bytes.old }
    ensures whole { bytes.new ≡ written bytes.old at (block_records_bytes blocks.now) }
    ensures front { take (at + 8 * length blocks.now) bytes.new ≡ take at bytes.old ++ block_records_bytes blocks.now }
    ensures fit { AllByRecursion IsBlockRecord blocks.now }
{
    'put: for (i, block) in blocks.iter().enumerate() {
        put_block_record(bytes, at + 8 * i, block);
    }
}

/// The `count` block records that stand one after the other from `at` on.
pub fn get_block_records(
    alloc: Global,
    bytes: &[u8],
    at: usize,
    count: usize,
) -> Result<Vec<BlockRecord>, AllocError>
    requires { at + 8 * count ≤ length bytes.now }
    ensures { IfOk result (λ blocks. blocks.items ≡ block_records_at at count bytes.now) }
{
    let mut blocks = Vec::new(alloc);
    'get: for i in 0..count {
        blocks.push(get_block_record(bytes, at + 8 * i))?;
    }
    Ok(blocks)
}

/// Writes table records one after the other from `at` on.
pub fn put_table_records(bytes: &mut [u8], at: usize, changes: &[TableRecord])
    requires { at + 24 * length changes.now ≤ length bytes.old }
    ensures whole { bytes.new ≡ written bytes.old at (table_records_bytes changes.now) }
    ensures front { take (at + 24 * length changes.now) bytes.new ≡ take at bytes.old ++ table_records_bytes changes.now }
    ensures fit { AllByRecursion IsTableRecord changes.now }
{
    'put: for (i, change) in changes.iter().enumerate() {
        put_table_record(bytes, at + 24 * i, change);
    }
}

/// The `count` table records that stand one after the other from `at` on.
pub fn get_table_records(
    alloc: Global,
    bytes: &[u8],
    at: usize,
    count: usize,
) -> Result<Vec<TableRecord>, AllocError>
    requires { at + 24 * count ≤ length bytes.now }
    ensures { IfOk result (λ changes. changes.items ≡ table_records_at at count bytes.now) }
{
    let mut changes = Vec::new(alloc);
    'get: for i in 0..count {
        changes.push(get_table_record(bytes, at + 24 * i))?;
    }
    Ok(changes)
}
