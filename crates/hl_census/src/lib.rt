//! What is counted of the inodes of a disk, once they were found: the addresses that its tables and nodes name, the live
//! blocks of each log segment, the charge, the last uses and the clean segments; and the rules of a mount that no block is
//! shared, that none strays and that the charge is within the quota (`docs/FORMATS.md`, "The rules of a mount"). Nothing
//! here reads a disk.
#![tactic(auto)]

mod charging;
mod clearing;
mod last_uses;
mod logged;
mod marking;
mod naming;
mod numbers;
mod sharing;
mod straying;

pub use charging::{charge, over_quota};
pub use clearing::clean;
pub use last_uses::uses;
pub use naming::named;
pub use numbers::live;
pub use sharing::shared_block;
pub use straying::stray_block;
