//! The bytes of files and directories over the store: which tertiary segments a read, a write and a cut need, and what they
//! read and leave.
//!
//! A call first asks what it needs (`read_needs`, `write_needs`, `cut_needs`); with all of it at hand `read_range` appends
//! the bytes, and `write_range` and `cut_range` change the file, by reading and putting the blocks that they touch alone.
//! All blocks of a directory are resident: `read_directory` reads each, and `put_directory` puts those from where its bytes
//! change on.
#![tactic(auto)]

mod directories;
mod needs;
mod ranges;
mod reading;
mod writing;

pub use directories::{DirectoryFound, put_directory, read_directory};
pub use needs::{Needed, cut_needs, read_needs, write_needs};
pub use ranges::RangeStep;
pub use reading::read_range;
pub use writing::{cut_range, write_range};
