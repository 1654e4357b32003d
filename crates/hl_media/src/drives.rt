//! The drives: which jobs are out, and the answers of their begins and ends.

use crate::job::{Job, JobNote};
use crate::mark::Mark;
use crate::rack::Rack;
use hl_bytes::SegBuf;

/// The rack, the buffers of no job, the jobs that are out and the number of the next.
#[derive(Drop)]
pub struct Drives<V> {
    pub rack: Rack<V>,
    pub spare: [Option<SegBuf>; 2],
    pub out: [Option<JobNote>; 2],
    pub next: u64,
}

/// The answer of a transfer's begin.
#[derive(Drop)]
pub enum Begun<V> {
    /// The job leaves, with its volume.
    Job(Job<V>),
    /// No segment waits to be copied.
    NoneLeft,
    /// The segment needs no fetch.
    Here,
    /// The volume is out with this job.
    Busy { volume: u32, job: u64 },
    /// Two jobs are out.
    Drives,
    /// A call of the machine failed.
    DiskFault,
}

/// The answer of a transfer's end.
#[derive(Drop)]
pub enum Over<V> {
    /// The copied segment lasts on its volume.
    Home,
    /// The medium has ended; the segment is to be copied to this slot.
    Moved { volume: u32, slot: u32 },
    /// The medium has ended, and no slot is free.
    Stuck,
    /// The fetched segment is in its line.
    Bound,
    /// The slot holds another segment now.
    Stale,
    /// A call of the volume failed.
    Evol,
    /// The fetched segment is another than the tables keep, or damaged.
    Ebad { kept: Mark, found: Mark },
    /// The job was not carried, and stays out.
    Unmoved { job: Job<V> },
    /// A call of the machine failed.
    DiskFault,
    /// Memory is wanting.
    Memory,
}
