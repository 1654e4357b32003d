//! What the write of a slot met.

/// What the write of a slot met, where it did not fail.
#[derive(Clone, Copy, Debug, PartialEq, Eq)]
pub enum Written {
    /// The slot holds the buffer.
    Done,
    /// The slot lies past the end of the medium.
    EndOfMedium,
}
