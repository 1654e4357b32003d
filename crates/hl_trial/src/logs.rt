//! Logs of a small and of a large site on disks in memory, for trials that stop them at each moment.

mod sites;
mod trial;
mod units;
mod writing;

pub use trial::{Stoppable, Trial};
