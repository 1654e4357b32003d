//! The nodes of a site: it gives a node's block wherever it lies, holds what was changed since the last unit, and makes that
//! last by one unit of the log.
//!
//! `Store::node`, `block` and `place` find what the nodes have now. `prepare` brings a node to where it can be changed;
//! from then on `put`, `set_away`, `set_node` and `free` take no memory and can't fail. `flush` makes the nodes those of
//! every image that a stop may leave, and `release` lets go what is only kept to be read again. `checkpoint` writes the tables
//! and the next record, and finds the clean segments anew. After `reserve` neither the next flush nor so many notes are
//! refused for memory. `take_buf` and `give_buf` hand the unit buffer out and back.
#![tactic(auto)]

mod answers;
mod changing;
mod checkpointing;
mod counts;
mod flushing;
mod footing;
mod in_use;
mod lines;
mod live;
mod noting;
mod reading;
mod reserving;
mod seats;
mod segments;
mod store;

pub use answers::{Found, Node, NodeFound, Placed, Prepared};
pub use flushing::CLEAN_MIN;
pub use store::{Store, StoreParts};
