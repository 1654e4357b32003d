//! The calls that make, remove and list files and directories.
//!
//! A directory is searched and changed in its own bytes, and only the blocks that change are put. All reads and all memory
//! come before the first change.
#![tactic(auto)]

mod listing;
mod making;
mod removing;

pub use listing::{list, stat};
pub use making::{create, mkdir};
pub use removing::{rmdir, unlink};
