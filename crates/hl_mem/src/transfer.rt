//! A call of a volume as it is kept.

use hl_bytes::SegBuf;

/// A call that may change a volume.
#[derive(Drop)]
pub enum Transfer {
    /// A write of a slot that was done.
    Writing {
        slot: u32,
        bytes: SegBuf,
    },
    /// A write that failed or met the end of the medium, and what the slot holds since.
    FailedWriting {
        slot: u32,
        bytes: SegBuf,
        after: SegBuf,
    },
    /// A sync, and whether it was done.
    Syncing(bool),
}
