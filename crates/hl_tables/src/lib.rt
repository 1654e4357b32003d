//! The tables of a site: where each inode lies, which log segments are used, what each slot holds
//! and which volumes are full (`docs/FORMATS.md`, "Tables").
#![tactic(auto)]

mod entries;
mod laws;
mod reading;
mod tables;

pub use laws::told_by_blocks;
pub use tables::Tables;
