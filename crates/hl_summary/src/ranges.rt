//! What may stand in the summary of a part.

ghost use Rattle.std.specs.Prelude.{◌≡◌, ◌≤◌, ◌+◌, ◌↔◌, ℕ, IsTrue};
ghost use Rattle.hl_summary.specs.Ranges.{IsBlockOf, IsChangeOf, IsInodeIndex, IsInodeNumber, IsNextPlace, IsPlace};

use hl_addr::Geometry;
use hl_bytes::{BlockRecord, TableRecord};

/// The greatest index of a data block.
pub const DATA_MAX: u32 = 1_035;

/// The index that stands for a table block.
pub const TABLE: u32 = 4_294_967_293;

/// The index that stands for the pointer block of an inode.
pub const POINTERS: u32 = 4_294_967_294;

/// The index that stands for the block of an inode.
pub const INODE: u32 = 4_294_967_295;

/// Whether a part may begin at the place.
pub(crate) fn is_place(seg: u32, block: u32, geometry: &Geometry) -> bool
    ensures { IsTrue result ↔ IsPlace geometry.now seg block }
{
    1 <= seg && seg <= geometry.log && block as u64 + 2 <= geometry.k as u64
}

/// Whether the part behind one of `blocks` blocks at the place may begin there.
pub(crate) fn is_next_place(
    seg: u32,
    block: u32,
    blocks: u32,
    next_seg: u32,
    next_block: u32,
    geometry: &Geometry,
) -> bool
    ensures { IsTrue result ↔ IsNextPlace geometry.now seg block blocks next_seg next_block }
{
    let behind = block as u64 + blocks as u64 + 1;
    if behind + 2 <= geometry.k as u64 {
        next_seg == seg && next_block as u64 == behind
    } else {
        next_seg != seg && 1 <= next_seg && next_seg <= geometry.log && next_block == 0
    }
}

/// Whether the number is that of an inode.
fn is_inode_number(number: u32, inodes: u32) -> bool
    ensures { IsTrue result ↔ IsInodeNumber inodes number }
{
    1 <= number && number < inodes
}

/// Whether the index stands for a block of an inode.
fn is_inode_index(index: u32) -> bool
    ensures { IsTrue result ↔ IsInodeIndex index }
{
    index <= DATA_MAX || index == POINTERS || index == INODE
}

/// Whether the record is of a block of an inode, or of one of the table blocks.
pub(crate) fn is_block_of(inodes: u32, tables: u32, block: &BlockRecord) -> bool
    ensures { IsTrue result ↔ IsBlockOf inodes tables block.now }
{
    if block.index == TABLE {
        block.ino < tables
    } else {
        is_inode_index(block.index) && is_inode_number(block.ino, inodes)
    }
}

/// Whether the record is one of the five changes of the tables, on a site of so many inode numbers,
/// slots and volumes.
pub(crate) fn is_change_of(inodes: u32, slots: u32, volumes: u32, change: &TableRecord) -> bool
    ensures { IsTrue result ↔ IsChangeOf inodes slots volumes change.now }
{
    match change.kind {
        1 => is_inode_number(change.a, inodes) && change.b == 0 && change.serial == 0,
        2 => change.a < slots,
        3 => change.a < slots && change.b == 0,
        4 => change.a < slots && change.b == 0 && change.serial == 0,
        5 => change.a < volumes && change.b == 0 && change.serial == 0,
        _ => false,
    }
}
