//! What the tests of the layers over the log stand on: hand-made images and what is found in them, and, on disks in memory,
//! logs, sites that are made, stores beside a plain model, and file calls beside those of plain files. No test stands here
//! (`hl_trial_site` has them), so that all of it is proved once.
#![tactic(auto)]

pub mod files;
pub mod images;
pub mod logs;
pub mod mkfs;
mod segments;
pub mod stores;
