//! What a stop makes of a write.

/// What becomes of the bytes of each write that no sync has followed.
#[derive(Clone, Copy, Debug, PartialEq, Eq)]
pub enum Tear {
    /// They are as they were.
    Old,
    /// They are all there.
    New,
    /// So many of the first are there, the others are as they were.
    Prefix(u32),
    /// Each is this byte.
    Filled(u8),
}
