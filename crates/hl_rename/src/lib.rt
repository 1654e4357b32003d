//! The call that gives a file or a directory another path.
//!
//! A rename changes the one or two directories that name what moves and nothing below it. All reads and all memory come before
//! the first change.
#![tactic(auto)]

mod editing;
mod finding;
mod moving;
mod renaming;

pub use renaming::rename;
