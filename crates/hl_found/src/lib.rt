//! What an image of a disk holds, found in its bytes by a plain and slow program: the newest
//! record, the chain behind it, the tables that they spell and the nodes that these name; whether
//! these are sound, the entries of the directories, the paths on which numbers are reached, the
//! charge, and the segments that lie in lines (`docs/FORMATS.md`, "Mounting").
//!
//! Its contracts are the definitions of `hl_nodes`, so tests and the layers above compare with it.
#![tactic(auto)]

mod away;
mod charges;
mod contents;
mod directories;
mod files;
mod live;
mod newest;
mod reach;
mod segments;
mod shelves;
mod slots;
mod soundness;
mod staged;
mod tables;

pub use away::aways_are_apart;
pub use charges::charge_is_within;
pub use contents::{FoundContents, contents_of};
pub use directories::{FoundUse, uses_of};
pub use files::files_of;
pub use live::{LiveAt, lie_apart, live_blocks};
pub use newest::{has_volumes, newest_record};
pub use reach::{Reached, places_of};
pub use segments::blocks_are_in_place;
pub use shelves::{ShelfSegment, ends_in_zeros, plain_bytes, serves_file, staged_segments};
pub use slots::{next_tertiary, slots_are_possible};
pub use soundness::is_sound;
pub use staged::lines_hold_segments;
pub use tables::{chain_of, tables_of};
