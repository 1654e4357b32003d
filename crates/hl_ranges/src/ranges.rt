//! How a read or a change of a file ends.

/// How a read or a change of a file ends.
#[derive(Clone, Copy, Debug, PartialEq, Eq)]
pub enum RangeStep {
    Done,
    /// A read failed.
    DiskFault,
    /// Memory was wanting, of which a needed segment that no line holds is a case.
    Memory,
}

/// How many bytes a block has.
pub(crate) const BLOCK_BYTES: u64 = 4_096;

/// The most bytes that one read gives.
pub(crate) const READ_MAX: u64 = 32_768;
