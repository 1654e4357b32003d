//! A tree of plain files as one list of bytes, both ways, and how many bytes it is.
#![tactic(auto)]

mod calls;
mod entry;
mod parse;
mod path;
mod read;
mod size;
mod write;

pub use calls::growth;
pub use read::{DUMP_LIMITS, read_dump};
pub use size::{DUMP_MAX, dump_size};
pub use write::write_dump;
