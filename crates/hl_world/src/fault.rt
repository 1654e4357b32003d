//! Why a world can't be closed.

/// What a closing met. The machine is handed back whatever it is.
#[derive(Clone, Copy, Debug, PartialEq, Eq)]
pub enum CloseFault {
    /// A write or a sync failed.
    Disk,
    /// Memory was wanting, and nothing was written.
    Memory,
}
