//! Sites that are made on disks in memory, for trials that stop the making at each moment and let each of its calls fail.

mod sites;
mod trial;

pub use sites::Site;
pub use trial::{Found, Makeable, Trial};
