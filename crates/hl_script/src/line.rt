//! A line of a script, and why bytes are none.

ghost use Rattle.std.specs.Prelude.{◌≡◌};
ghost use Rattle.hl_script.specs.declared.line.BadLine.TheVariants.{Memory};

use hl_tree::{Call, List, Path};
use std::alloc::{AllocError, AllocFailed};

/// One line of a script (`docs/SCRIPT.md`). The numbers that have no other range fill their type.
#[derive(Drop)]
pub enum Line {
    /// A file call.
    File(Call),
    /// The `count` files that are most worth moving, from 1 to 1,000.
    Rank { count: u32 },
    /// The data blocks of these files, from 1 to 64, go to the next free slot.
    Stage { paths: List<Path> },
    /// A staged line's volume leaves for its copy.
    Copy,
    /// The volume with this block of the file leaves for its fetch.
    Fetch { path: Path, block: u32 },
    /// The job's transfer runs.
    Move { job: u64 },
    /// The job comes back.
    End { job: u64 },
    /// The line forgets its segment.
    Eject { line: u32 },
    /// One log segment is cleaned.
    Clean,
    /// A checkpoint is written.
    Checkpoint,
}

/// Why no line is given.
#[derive(Clone, Copy, Debug, PartialEq, Eq)]
pub enum BadLine {
    /// No line is spelled so.
    Bad,
    Memory,
}

impl From<AllocError> for BadLine {
    ghost from_gives = { λ _ e. e ≡ Memory };

    fn from(_e: AllocError) -> BadLine {
        BadLine::Memory
    }
}

impl<T: Drop> From<AllocFailed<T>> for BadLine {
    ghost from_gives = { λ _ e. e ≡ Memory };

    fn from(_e: AllocFailed<T>) -> BadLine {
        BadLine::Memory
    }
}
