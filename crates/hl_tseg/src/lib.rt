//! What each slot of the volumes holds, and which volumes are full.
#![tactic(auto)]

mod slot;
mod table;

pub use slot::Slot;
pub use table::TsegTable;
