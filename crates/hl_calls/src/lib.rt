//! What a file call over the store answers, and how much it changes what the nodes are charged.
#![tactic(auto)]

mod growth;
mod quota;
mod step;

pub use growth::{Growth, cut_growth, write_growth};
pub use quota::{directory_charge, is_over};
pub use step::{FILE_MAX, FileStep};
