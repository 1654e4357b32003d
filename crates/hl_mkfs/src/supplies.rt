//! What memory is taken for before the first write.

ghost use Rattle.std.specs.Prelude.{◌≡◌, IfOk};
ghost use Rattle.hl_log.specs.Logs.{unit_of};
ghost use Rattle.hl_mkfs.specs.Parts.{AreSupplies, before_first, root_bytes, root_unit};

use crate::tables::first_table_blocks;
use hl_addr::{Geometry, NOTHING, Numbers};
use hl_bytes::{BLOCK, Block, BlockRecord};
use hl_inode::{Inode, Kind, encode};
use hl_log::Unit;
use hl_summary::INODE;
use hl_super::Record;
use hl_tree::List;
use std::alloc::{AllocError, Global};

/// What is written into a new log, and what the log is opened with.
#[derive(Drop)]
pub(crate) struct Supplies {
    /// Where the log starts.
    pub start: Record,
    /// What record 1 is to have.
    pub next: Record,
    /// The root's inode.
    pub unit: Unit,
    /// The blocks of the first tables.
    pub tables: Vec<Block>,
}

/// The block of the root's inode.
#[tactic(auto, unfolding(crate::specs::Parts::root_bytes), using(crate::proofs::FirstTables::all_nothing))]
fn root_block() -> Block
    ensures { result.bytes ≡ root_bytes }
{
    let root = Inode {
        number: 1,
        kind: Kind::Dir,
        size: 0,
        used: 0,
        direct: [NOTHING; 12],
        single: NOTHING,
    };
    let mut block = Block { bytes: [0; BLOCK] };
    encode(&root, &mut block.bytes);
    block
}

/// The unit that brings the root's inode.
fn root_unit(alloc: Global) -> Result<Unit, AllocError>
    ensures { IfOk result (λ unit. unit_of unit ≡ root_unit) }
{
    let named = BlockRecord {
        ino: 1,
        index: INODE,
    };
    let mut blocks = Vec::new(alloc);
    blocks.push((named, root_block()))?;
    Ok(Unit {
        blocks: List::of(blocks),
        tables: List::of(Vec::new(alloc)),
    })
}

/// Where a new log starts, before it has a record.
fn before_first(alloc: Global, geometry: &Geometry) -> Result<Record, AllocError>
    ensures { IfOk result (λ rec. rec ≡ before_first geometry.now) }
{
    Ok(Record {
        number: 0,
        serial: 1,
        seg: 1,
        block: 0,
        tseg_serial: 1,
        format: 1,
        volumes: geometry.volumes.copy(alloc)?,
        tables: Numbers::of(Vec::new(alloc)),
    })
}

/// What memory is taken for.
pub(crate) fn take_supplies(alloc: Global, geometry: &Geometry) -> Result<Supplies, AllocError>
    ensures { IfOk result (AreSupplies geometry.now) }
{
    Ok(Supplies {
        start: before_first(alloc, geometry)?,
        next: before_first(alloc, geometry)?,
        unit: root_unit(alloc)?,
        tables: first_table_blocks(alloc, geometry)?,
    })
}
