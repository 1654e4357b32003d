//! Inodes and pointer blocks, each one block (`docs/FORMATS.md`, "Inode block" and "Pointer block").
#![tactic(auto)]

mod inode;
mod pointers;

pub use inode::{Inode, Kind, decode, encode};
pub use pointers::{pointer, set_pointer};
