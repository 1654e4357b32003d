//! The bytes of one directory (`docs/FORMATS.md`, "Directory bytes"), searched and edited where they
//! lie, without its entries as values.
//!
//! A contract speaks of the entries that the bytes spell, whichever they are. Bytes that spell none
//! are searched as far as whole entries stand in them, and edited there. Each call reads the bytes
//! once, from the first on, and an edit moves those behind the change once.
#![tactic(auto)]

mod editing;
mod listing;
mod place;
mod searching;

pub use editing::{insert, remove, replace};
pub use listing::{count, names};
pub use place::EntryPlace;
pub use searching::find;
