//! The file calls over the store.
//!
//! `call` makes each of the eleven calls by the rules of files, reading and changing the nodes that it touches alone.
#![tactic(auto)]

mod calling;

pub use calling::call;
pub use hl_calls::FileStep;
pub use hl_walk::{FoundPath, find};
