//! The outside of the file system: a disk with an output, an input, a clock, and the volumes of a jukebox.
//!
//! Each is a trait whose meaning is ghost: what a device does not tell stays unknown, and every failure raises a count.
#![tactic(auto)]

mod bay;
mod carry;
mod clock;
mod drives;
mod failed;
mod job;
mod loaded;
mod machine;
mod mark;
mod rack;
mod source;
mod synced;
mod volume;
mod written;

pub use bay::Bay;
pub use clock::Clock;
pub use drives::{Begun, Drives, Over};
pub use failed::Failed;
pub use job::{Carried, Job, JobKind, JobNote};
pub use loaded::Loaded;
pub use machine::Machine;
pub use mark::Mark;
pub use rack::Rack;
pub use source::Source;
pub use synced::write_synced;
pub use volume::Volume;
pub use written::Written;
