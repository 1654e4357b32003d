//! Parts of the log: a summary, and the blocks that it describes behind it (`docs/FORMATS.md`,
//! "Parts of the log").
#![tactic(auto)]

mod parts;
mod ranges;
mod reading;

pub use parts::{BLOCKS_MAX, Heading, Summary, TABLES_MAX, check, seal, seal_with};
pub use ranges::{DATA_MAX, INODE, POINTERS, TABLE};
pub use reading::{block_count, block_record, heading, is_part, table_count, table_record};
