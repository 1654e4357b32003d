//! A mounted disk: the files that a script's lines are done on, with the machine that keeps them and says the answers.
#![tactic(auto)]

mod calls;
mod fault;
mod world;

pub use fault::CloseFault;
pub use hl_disk::MountError;
pub use world::World;
