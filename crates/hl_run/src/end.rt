//! Why a run ends, and what its command came to.

ghost use Rattle.std.specs.Prelude.{◌≡◌};
ghost use Rattle.hl_run.specs.Run.{closes, status_of, status_of_end, status_of_fault, status_of_refusal};

use hl_world::{CloseFault, MountError};

/// The event that ends a run over lines.
#[derive(Clone, Copy, Debug, PartialEq, Eq)]
pub enum End {
    /// The input was read to its end, and every answer was said.
    Finished,
    /// A line is off the grammar, or isn't served.
    BadLine,
    /// An answer couldn't be said.
    Output,
    /// A write or a sync of the disk failed in a line.
    Broken,
    /// The input couldn't be read.
    Input,
    /// Memory was wanting.
    Memory,
    /// A line passes a limit on the input.
    TooLong,
}

/// What a run came to.
#[derive(Clone, Copy, Debug, PartialEq, Eq)]
pub enum Finish {
    /// The disk wasn't mounted.
    Refused(MountError),
    /// It ended so, and where files are to be kept behind that, they were.
    Ended(End),
    /// It ended so, and the files couldn't be kept behind that.
    Unclosed(End, CloseFault),
}

impl End {
    /// Whether the files are kept on the disk behind this end.
    pub fn closes(self) -> bool
        ensures { result ≡ closes self }
    {
        match self {
            End::Finished | End::BadLine | End::Input | End::TooLong => true,
            End::Output | End::Broken | End::Memory => false,
        }
    }

    /// The status that the program ends with.
    pub fn status(self) -> u8
        ensures { result ≡ status_of_end self }
    {
        match self {
            End::Finished => 0,
            End::BadLine => 3,
            End::Broken => 5,
            End::Output => 6,
            End::Input => 7,
            End::Memory => 8,
            End::TooLong => 10,
        }
    }
}

impl Finish {
    /// The status that the program ends with.
    pub fn status(self) -> u8
        ensures { result ≡ status_of self }
    {
        match self {
            Finish::Refused(MountError::NoLabel | MountError::NoRecord) => 4,
            Finish::Refused(MountError::DiskFault) => 5,
            Finish::Refused(MountError::Memory) => 8,
            Finish::Ended(end) => end.status(),
            Finish::Unclosed(_, CloseFault::Disk) => 5,
            Finish::Unclosed(_, CloseFault::Memory) => 8,
        }
    }
}
