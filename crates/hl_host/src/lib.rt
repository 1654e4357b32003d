//! The devices of the system: files, the standard streams and the clock. They tell no content.
#![tactic(auto)]

mod clock;
mod faults;
mod machine;
mod opened;
mod positional;
mod source;
mod volume;
mod whole;

pub use clock::StdClock;
pub use machine::FileMachine;
pub use positional::PositionalFile;
pub use source::StdSource;
pub use volume::FileVolume;
