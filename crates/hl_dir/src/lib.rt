//! The bytes of a directory (`docs/FORMATS.md`, "Directory bytes").
#![tactic(auto)]

mod entry;
mod reading;
mod writing;

pub use entry::Entry;
pub use reading::decode;
pub use writing::encode;
