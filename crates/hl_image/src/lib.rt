//! What an image of a disk holds of the log: its newest record, the chain of parts behind it, where the chain is cut,
//! and what a stop may leave of a write unless a torn one checks by chance (`docs/FORMATS.md`, "Parts of the log").
//!
//! The definitions are those that the log, mounting and every promise about stops are stated by. `chain_parts` computes
//! the chain of given bytes, slowly and plainly.
#![tactic(auto)]

mod chain;
mod place;

pub use chain::{ChainPart, chain_parts};
pub use place::LogPlace;
