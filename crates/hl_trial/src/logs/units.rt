//! Units of a site.

ghost use Rattle.std.specs.Prelude.{◌≡◌, ◌<◌, ◌≤◌, IfOk, IfSome, All, map as map_list, length, sum};
ghost use Rattle.hl_addr.specs.Layout.{table_blocks};
ghost use Rattle.hl_summary.specs.Ranges.{IsBlockOf, IsChangeOf};
ghost use Rattle.hl_trial.specs.Units.{AreBlocksOf, IsOfSite};

use hl_addr::Geometry;
use hl_bytes::{BLOCK, Block, BlockRecord, TableRecord};
use hl_log::Unit;
use hl_tree::List;
use std::alloc::{AllocError, Global};

/// So many data blocks of inode 7 that hold this byte, and so many changes of the tables. None on a site without that
/// inode or without a slot 3.
pub fn unit(
    alloc: Global,
    site: &Geometry,
    blocks: u32,
    byte: u8,
    changes: u32,
) -> Result<Option<Unit>, AllocError>
    requires { blocks ≤ 1036 }
    ensures { IfOk result (λ unit. IfSome unit (IsOfSite site.now)) }
{
    if site.inodes <= 7 || site.slots() <= 3 {
        return Ok(None);
    }
    let all = filled(alloc, site, blocks, byte)?;
    let tables = spoilt(alloc, site, changes)?;
    Ok(Some(Unit {
        blocks: List::of(all),
        tables: List::of(tables),
    }))
}

/// So many data blocks of inode 7.
fn filled(
    alloc: Global,
    site: &Geometry,
    blocks: u32,
    byte: u8,
) -> Result<Vec<(BlockRecord, Block)>, AllocError>
    requires inode { 7 < site.now.inodes }
    requires few { blocks ≤ 1036 }
    ensures of { IfOk result (λ all. AreBlocksOf site.now all.items) }
    ensures count { IfOk result (λ all. length all.items ≡ blocks) }
{
    let mut all = Vec::new(alloc);
    for index in 0..blocks {
        let block = Block {
            bytes: [byte; BLOCK],
        };
        all.push((BlockRecord { ino: 7, index }, block))?;
    }
    Ok(all)
}

/// So many changes: slot 3 is spoilt.
fn spoilt(alloc: Global, site: &Geometry, changes: u32) -> Result<Vec<TableRecord>, AllocError>
    requires { 3 < sum site.now.volumes }
    ensures { let g = site.now in
        IfOk result (λ tables. All (IsChangeOf g.inodes (sum g.volumes) (length g.volumes)) tables.items) }
{
    let mut tables = Vec::new(alloc);
    for _ in 0..changes {
        tables.push(TableRecord {
            kind: 4,
            a: 3,
            b: 0,
            serial: 0,
        })?;
    }
    Ok(tables)
}
