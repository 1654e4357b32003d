//! What an address stands for.

/// The address that stands for no block, as in an empty pointer.
pub const NOTHING: u32 = 4_294_967_295;

/// What an address stands for (`docs/FORMATS.md`, "Address map").
#[derive(Clone, Copy, Debug, PartialEq, Eq)]
pub enum Place {
    /// A block of the disk's first segment, which holds the label and the checkpoint records.
    Label { block: u32 },
    /// A block of a log segment; the segments of the log are numbered from 1.
    Log { seg: u32, block: u32 },
    /// A block of a line of the disk's cache.
    Line { line: u32, block: u32 },
    /// A block of a slot of a removable volume.
    Tertiary { volume: u32, slot: u32, block: u32 },
    /// No block of this site.
    Dead,
    /// The address that is never a block's.
    Nothing,
}
