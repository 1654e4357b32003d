//! What one line of the disk holds.

/// What a line holds.
#[derive(Clone, Copy, Debug, PartialEq, Eq)]
pub enum LineState {
    /// Nothing.
    Empty,
    /// A segment that its volume has too. The line may be given to another.
    Clean { tseg: u32 },
    /// A segment that no volume has yet.
    Staging { tseg: u32 },
    /// A segment that no volume has yet, and none has a slot for.
    Stuck { tseg: u32 },
    /// Nothing yet: it waits for a segment that is being fetched.
    Aside,
}
