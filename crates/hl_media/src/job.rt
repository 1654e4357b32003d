//! Jobs: the transfer of one segment between a line and a volume.

use crate::loaded::Loaded;
use hl_bytes::SegBuf;

/// Which way a job carries its segment.
#[derive(Clone, Copy, Debug, PartialEq, Eq)]
pub enum JobKind {
    /// From its buffer to the volume.
    Copy,
    /// From the volume into its buffer.
    Fetch,
}

/// How the carrying of a job ended.
#[derive(Clone, Copy, Debug, PartialEq, Eq)]
pub enum Carried {
    /// The segment was carried, and a copied one lasts.
    Done,
    /// The slot of a copy lies past the end of the medium.
    EndOfMedium,
    /// A call of the volume failed; its count of failures was then this.
    Fault { faults: u64 },
}

/// A transfer that is out, with its volume and its buffer of one segment.
#[derive(Drop)]
pub struct Job<V> {
    pub number: u64,
    pub kind: JobKind,
    /// The tertiary segment, and its slot on the volume.
    pub tseg: u32,
    pub slot: u32,
    pub serial: u64,
    pub line: u32,
    pub buf: SegBuf,
    pub loaded: Loaded<V>,
    /// The answer of `carry`, once it was called.
    pub carried: Option<Carried>,
}

/// What stays known of a job that is out.
#[derive(Clone, Copy, Debug, PartialEq, Eq)]
pub struct JobNote {
    pub number: u64,
    pub kind: JobKind,
    pub tseg: u32,
    pub slot: u32,
    pub serial: u64,
    pub line: u32,
    pub volume: u32,
    /// The volume's count of failures as it left.
    pub faults: u64,
}
