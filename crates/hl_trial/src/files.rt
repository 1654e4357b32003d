//! File calls over stores of several sites, made beside the calls of plain files. Line by line the reply is compared, and with
//! it what is charged and the last use of the file; now and then the files of the disk are.

mod beside;
mod extents;
mod filed;
mod lines;
mod sites;

pub use beside::Beside;
pub use extents::Extent;
pub use filed::{Filed, FilesTrial};
pub use lines::{Draws, Mix, call_of};
pub use sites::Site;
