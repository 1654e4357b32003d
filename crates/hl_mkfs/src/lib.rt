//! Making a site on the log: its label, its first record, and the root alone (`docs/FORMATS.md`, "Label", "Checkpoint
//! record" and "Parts of the log").
//!
//! A site is made in stages, each of them synced before the next (`specs/Stages.antt`): zeros over the label and the
//! records, zeros over the log's first block, the unit of the root's inode, the table parts with record 1, and last the
//! label. Until the label is under way a stop leaves none.
#![tactic(auto)]

mod first_log;
mod making;
mod start;
mod supplies;
mod tables;

pub use making::{MkfsError, mkfs};
