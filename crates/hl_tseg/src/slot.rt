//! What one slot of a volume holds.

/// What a slot holds.
#[derive(Clone, Copy, Debug, PartialEq, Eq)]
pub enum Slot {
    /// Nothing: a segment may be put here.
    Free,
    /// The segment of this serial, whose bytes are still in a line of the disk alone.
    Staged { line: u32, serial: u64 },
    /// The segment of this serial.
    Home { serial: u64 },
    /// Nothing that counts: a copy to it failed, and no segment is put here again.
    Spoilt,
}
