//! What is said of a line.

ghost use Rattle.std.specs.Prelude.{◌≡◌};
ghost use Rattle.hl_script.specs.Answer.{is_memory};

use hl_media::Mark;
use hl_tree::{List, Path, Refusal, Reply};

/// The answer to a line, printed by `print_answer` (`docs/SCRIPT.md`, "Answers").
#[derive(Drop)]
pub enum Said {
    /// A file call was done or refused by the file rules.
    Reply(Reply),
    /// The path of a `stage` or `fetch` is refused.
    PathRefused(Refusal),
    NoSpace,
    Eio,
    LogFull,
    Evol,
    Ebad {
        kept: Mark,
        found: Mark,
    },
    Stopped {
        faults: u64,
    },
    Ranked(List<Path>),
    /// So many data blocks went to this slot, and its segment to this line.
    Staged {
        blocks: u32,
        volume: u32,
        slot: u32,
        line: u32,
    },
    Nothing,
    NoLine,
    NoSlot,
    Job(u64),
    NoneLeft,
    Busy {
        volume: u32,
        job: u64,
    },
    Drives,
    Here,
    NoJob,
    Unmoved,
    /// A transfer is done.
    Moved,
    Medium,
    Home,
    Stuck,
    Bound,
    Stale,
    /// A copy goes to another volume's slot.
    MovedTo {
        volume: u32,
        slot: u32,
    },
    Ejected,
    Checkpointed,
    Staging,
    Empty,
    InJob,
    Cleaned(u32),
    /// Memory ran out: never printed.
    Memory,
}

impl Said {
    /// Whether memory ran out, so that there is no text.
    pub fn is_memory(&self) -> bool
        ensures { result ≡ is_memory self.now }
    {
        match self {
            Said::Memory => true,
            Said::Reply(Reply::Memory) => true,
            _ => false,
        }
    }
}
