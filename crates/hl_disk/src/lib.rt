//! A disk that holds a tree of plain files as a dump (`docs/FORMATS.md`, "The disk of two dumps").
//!
//! The dump of each number goes into the half that the one before isn't in, and its record follows once the dump
//! lasts. So a stop at any moment leaves the tree of one of the two numbers whole.
#![tactic(auto)]

mod dump;
mod formatting;
mod mounting;
mod place;
mod record;
mod saving;

pub use formatting::format;
pub use mounting::{MountError, Mounted, mount};
pub use place::DISK_BLOCKS;
pub use record::{DumpRecord, decode_record, encode_record};
pub use saving::{SaveError, save};
