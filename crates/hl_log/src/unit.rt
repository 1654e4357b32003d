//! What a unit brings, and how its writing ends.

use hl_bytes::{Block, BlockRecord, TableRecord};
use hl_tree::List;

/// Blocks and changes of the tables that become durable together.
#[derive(Drop)]
pub struct Unit {
    /// Each block, and which block of which inode it is.
    pub blocks: List<(BlockRecord, Block)>,
    /// The changes of the tables, in their order.
    pub tables: List<TableRecord>,
}

/// How the writing of a unit or of a checkpoint ends.
#[derive(Clone, Copy, Debug, PartialEq, Eq)]
pub enum UnitAnswer {
    /// It is durable, and so many of the clean segments were taken, in their order.
    Written { used: u32 },
    /// It needs more clean segments. Nothing was written.
    LogFull,
    /// A device call failed, and the log is not to be written again.
    DiskFault,
    /// Memory was wanting, and nothing was written. No unit is answered so.
    Memory,
}
