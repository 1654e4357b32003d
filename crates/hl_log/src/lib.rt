//! The log: units and checkpoints that are whole or absent, at every moment (`docs/FORMATS.md`, "Parts of the log" and
//! "Order of device calls").
#![tactic(auto)]

mod batch;
mod checkpoint;
mod load;
mod log;
mod part;
mod piece;
mod plan;
mod position;
mod unit;
mod writing;

pub use batch::has_clean;
pub use log::Log;
pub use unit::{Unit, UnitAnswer};
