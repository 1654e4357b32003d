//! Paths over the store: a walk from the root on reads one directory a name, and searches it in its own bytes.
#![tactic(auto)]

mod found;
mod walk;

pub use found::{FoundPath, find};
pub use walk::{Halt, ParentFound, find_number, find_parent, is_number};
