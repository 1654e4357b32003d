//! How a file call ends.

ghost use Rattle.std.specs.Prelude.{◌≡◌};
ghost use Rattle.hl_calls.specs.Calls.{halted_step, stopped_step};

use hl_ranges::RangeStep;
use hl_tree::Reply;
use hl_walk::Halt;

/// The most bytes that a file may have.
pub const FILE_MAX: u64 = 4_243_456;

/// How a file call ends. Nothing has changed unless it is done.
#[derive(Drop)]
pub enum FileStep {
    /// It was answered by the rules of files.
    Done(Reply),
    /// It needs the tertiary segment of this number, the first that no line holds.
    Needs(u32),
    /// The charge would be above the quota, and grow.
    NoSpace,
    /// A read failed.
    DiskFault,
    /// Memory was wanting.
    Memory,
}

impl FileStep {
    /// How a call ends whose walk halts.
    pub fn halted(halt: Halt) -> FileStep
        ensures { result ≡ halted_step halt }
    {
        match halt {
            Halt::Refused(why) => FileStep::Done(Reply::Refused(why)),
            Halt::DiskFault => FileStep::DiskFault,
            Halt::Memory => FileStep::Memory,
        }
    }

    /// How a call ends whose reading or changing of bytes stops.
    pub fn stopped(step: RangeStep) -> FileStep
        ensures { result ≡ stopped_step step }
    {
        match step {
            RangeStep::Done | RangeStep::Memory => FileStep::Memory,
            RangeStep::DiskFault => FileStep::DiskFault,
        }
    }
}
