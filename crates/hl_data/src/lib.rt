//! The calls on the bytes of a file: read, write and cut.
//!
//! Each finds the file, asks whether the quota allows it and which segments it needs, and only then reads or changes it, and
//! says that the lines were used. All reads and all memory come before the first change.
#![tactic(auto)]

mod file;
mod reading;
mod writing;

pub use reading::read;
pub use writing::{cut, write};
