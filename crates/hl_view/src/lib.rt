//! Tertiary segments and parts of the log, read where they lie (`docs/FORMATS.md`, "Tertiary segment"
//! and "Parts of the log"). A view is a slice of its buffer: it copies nothing and takes no memory,
//! and the buffer can't change while it is there.
#![tactic(auto)]

mod lines;
mod parts;

pub use lines::{LineView, seal_line};
pub use parts::PartView;
