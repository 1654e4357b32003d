//! The address map of a site, and the numbers that lay the site out.
#![tactic(auto)]

mod geometry;
mod limits;
mod numbers;
mod place;
mod slots;

pub use geometry::Geometry;
pub use limits::{is_within_limits, table_blocks_for};
pub use numbers::Numbers;
pub use place::{NOTHING, Place};
