//! What the calls of a store answer.

use hl_inode::Kind;
use hl_media::Failed;
use std::alloc::AllocError;

/// A node in use, without its blocks.
#[derive(Clone, Copy, Debug, PartialEq, Eq)]
pub struct Node {
    pub kind: Kind,
    /// In bytes, at most 4,243,456.
    pub size: u64,
    /// The moment of its last use; 0 for a directory.
    pub used: u64,
}

/// How a search for a node ends.
#[derive(Clone, Copy, Debug, PartialEq, Eq)]
pub enum NodeFound {
    Node(Node),
    /// The number isn't in use.
    Unused,
    /// A read failed.
    DiskFault,
    Memory,
}

/// How the reading of a block ends.
#[derive(Clone, Copy, Debug, PartialEq, Eq)]
pub enum Found {
    /// The block's bytes are in `out`.
    Bytes,
    /// It is a hole, and `out` is zeros.
    Hole,
    /// It is away, and no line holds its tertiary segment, which has this number.
    Away(u32),
    /// A read failed.
    DiskFault,
    Memory,
}

/// Where a block is.
#[derive(Clone, Copy, Debug, PartialEq, Eq)]
pub enum Placed {
    Hole,
    /// In the log, or new.
    Here,
    /// In the tertiary segment of this number, at this block of it.
    Away { tseg: u32, block: u32 },
    /// A read failed.
    DiskFault,
    Memory,
}

/// How preparing ends.
#[derive(Clone, Copy, Debug, PartialEq, Eq)]
pub enum Prepared {
    Ready,
    /// A read failed.
    DiskFault,
    Memory,
}

/// Why a block wasn't had: a device call failed, or memory was wanting, of which a block that spells nothing is a case.
#[derive(Clone, Copy, Debug, PartialEq, Eq)]
pub(crate) enum Trouble {
    DiskFault,
    Memory,
}

impl From<AllocError> for Trouble {
    ghost use Rattle.std.specs.Prelude.{◌≡◌};
    ghost use Rattle.hl_store.specs.declared.answers.Trouble.TheVariants.{Memory};

    ghost from_gives = { λ _ e. e ≡ Memory };

    fn from(_: AllocError) -> Trouble {
        Trouble::Memory
    }
}

impl From<Failed> for Trouble {
    ghost use Rattle.std.specs.Prelude.{◌≡◌};
    ghost use Rattle.hl_store.specs.declared.answers.Trouble.TheVariants.{DiskFault};

    ghost from_gives = { λ _ e. e ≡ DiskFault };

    fn from(_: Failed) -> Trouble {
        Trouble::DiskFault
    }
}
