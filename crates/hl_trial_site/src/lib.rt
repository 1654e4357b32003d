//! Tests of the log, of hand-made images, of new sites, of the store, of the file calls over it, and of whole runs of the
//! program, over devices in memory.
#![tactic(auto)]

#[cfg(test)]
mod files;
#[cfg(test)]
mod images;
#[cfg(test)]
mod logs;
#[cfg(test)]
mod mkfs;
#[cfg(test)]
mod runs;
#[cfg(test)]
mod stores;
