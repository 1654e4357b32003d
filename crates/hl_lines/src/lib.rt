//! The lines of the disk that hold segments: what each one holds, which one holds a segment, and which one goes first
//! when a line is wanted.
#![tactic(auto)]

mod index;
mod state;
mod table;

pub use state::LineState;
pub use table::LineTable;
