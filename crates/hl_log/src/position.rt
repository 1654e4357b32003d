//! Where the log stands.

use hl_image::LogPlace;

/// Where the log's chain starts and goes on. It is fresh until the block at its head is known to be zeros.
#[derive(Clone, Copy)]
pub struct Position {
    /// The place and the serial of the chain's first part.
    pub start: LogPlace,
    pub first: u64,
    /// The place and the serial of the next part.
    pub head: LogPlace,
    pub serial: u64,
    pub fresh: bool,
}
