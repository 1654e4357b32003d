//! What nodes an image has: the tables that its newest record and its chain spell, the inodes that
//! they name, and the blocks of these in the log and in slots (`docs/FORMATS.md`, "Tables" and
//! "Inode block").
//!
//! These are definitions, and the modules of laws state what holds of them: an image has one such
//! contents, it has them by the blocks that they reach alone, a unit moves them whole, and a
//! checkpoint keeps the nodes.
#![tactic(auto)]

pub mod checkpoint_laws;
mod counting;
mod found;
pub mod image_laws;
pub mod listing_laws;
mod reading;
mod rule;
pub mod rule_laws;
pub mod unit_laws;

pub use counting::nodes_of;
pub use found::{FoundBlock, FoundNode};
pub use reading::{block_at, is_in_log, node_at, pointer_of};
pub use rule::Rule;
