//! The directories of a disk, each read once, and the rules of a mount that look at them alone: those of their bytes, of the
//! numbers that their entries name, and of numbers that nothing leads to (`docs/FORMATS.md`, "The rules of a mount").
#![tactic(auto)]

mod bytes;
mod checking;
mod names;
mod naming;
mod reach;

pub use checking::check_hierarchy;
