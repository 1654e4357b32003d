//! What an entry of a directory links to: the node that it names, and the directory that names it, changed.
//!
//! A directory is changed in its own bytes, and only the blocks that change are put. What a change needs is prepared before
//! the first change.
#![tactic(auto)]

mod changing;
mod linked;

pub use changing::{DirectoryChange, prepare};
pub use linked::{node_of, why_kept};
