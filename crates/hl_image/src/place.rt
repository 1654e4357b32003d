//! Where a part of the log begins.

/// A block of a segment of the log. Segments of the log are numbered from 1.
#[derive(Clone, Copy, Debug, PartialEq, Eq)]
pub struct LogPlace {
    pub seg: u32,
    pub block: u32,
}
