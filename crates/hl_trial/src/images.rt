//! Hand-made images of a small site: segments of 64 blocks, 16 of them for the log, 14 lines, 512
//! inode numbers and one volume of four slots. Their changes are spelled as text; and they are
//! looked at by the deciders of `hl_found`.

mod changes;
mod good;
mod hand_made;
mod looks;
mod rows;
mod sparse;
mod trees;
mod units;
mod verdict;

pub use changes::change;
pub use good::{image_with_away, plain_image};
pub use hand_made::BYTES;
pub use looks::{Looked, files, look, nodes};
pub use rows::{Row, numbers, row_of, rule_numbers};
pub use sparse::{AWAY, sparse_image};
pub use trees::{are_same, files_with_away, plain_files};
pub use units::image_with_units;
pub use verdict::broken_rules;
