//! The inodes and the pointer blocks of a disk, each read once, and the rules of a mount that look at them alone: those of
//! the map's entries, of inodes, of pointers and of pointer blocks (`docs/FORMATS.md`, "The rules of a mount").
#![tactic(auto)]

mod check_error;
mod entries;
mod found;
mod inodes;
pub mod laws;
mod pointers;
mod reading;
mod scan;

pub use check_error::CheckError;
pub use found::FoundInode;
pub use scan::survey;
