//! Devices in memory, for tests: they tell everything, and fail at the calls that they are told to.
#![tactic(auto)]

mod call;
mod clock;
mod failing;
mod machine;
mod recording;
mod segment;
mod source;
mod tear;
mod tearing;
mod transfer;
mod transfers;
mod volume;

pub use clock::MemClock;
pub use machine::MemMachine;
pub use source::MemSource;
pub use tear::Tear;
pub use volume::MemVolume;
