//! What a mount reads first of a machine: the label, the newest record, whether the rack is the
//! record's, the chain behind the record, and the tables with the chain laid over them
//! (`docs/FORMATS.md`, "Parts of the log" and "The rules of a mount").
//!
//! The machine is only read: the label, both records and each table block once, and a segment of the
//! log once for all parts of the chain that follow each other there. Memory is taken for one segment,
//! the tables, and the records of the chain's parts.
#![tactic(auto)]

mod chain;
mod covered;
mod label;
pub mod laws;
mod rack;
mod reading;
mod recovering;
mod segment;
mod site;
mod stop;
mod tables;

pub use recovering::{Recovered, recover};
pub use stop::MountError;
