//! Stores of a small and of a wide site on disks in memory, for trials that compare them with a plain model and with what
//! is found in their images, and stop them at each moment.

mod first;
mod lines;
mod model;
mod mounts;
mod nodes;
mod sites;
mod trial;
mod units;

pub use first::{First, HOME, STAGED, Tertiary, disk_blocks, image_of};
pub use model::{Plain, PlainNode, are_nodes};
pub use mounts::open_over;
pub use nodes::{is_number, make};
pub use sites::Site;
pub use trial::{Counted, Stored, Trial};
