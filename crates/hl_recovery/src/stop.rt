//! Why a disk isn't mounted.

use hl_media::Failed;
use hl_nodes::Rule;
use std::alloc::{AllocError, AllocFailed};

/// What stops a mount before anything is changed.
#[derive(Clone, Copy, Debug, PartialEq, Eq)]
pub enum MountError {
    /// Block 0 spells no label on a machine of so many blocks.
    NoLabel,
    /// Neither block 1 nor block 2 spells a record of the label.
    NoRecord,
    /// The rack isn't the record's: this is the first volume whose slots differ or that one of both
    /// lacks, and the slots that the rack has of it, 0 where it lacks it.
    WrongRack { volume: u32, slots: u32 },
    /// The disk breaks a rule, at this block.
    Damaged { block: u32, rule: Rule },
    /// A read failed.
    DiskFault,
    /// Memory was wanting.
    Memory,
}

impl From<AllocError> for MountError {
    ghost use Rattle.std.specs.Prelude.{◌≡◌};
    ghost use Rattle.hl_recovery.specs.declared.stop.MountError.TheVariants.{Memory};

    ghost from_gives = { λ _ stop. stop ≡ Memory };

    fn from(_e: AllocError) -> MountError {
        MountError::Memory
    }
}

impl<T: Drop> From<AllocFailed<T>> for MountError {
    ghost use Rattle.std.specs.Prelude.{◌≡◌};
    ghost use Rattle.hl_recovery.specs.declared.stop.MountError.TheVariants.{Memory};

    ghost from_gives = { λ _ stop. stop ≡ Memory };

    fn from(_e: AllocFailed<T>) -> MountError {
        MountError::Memory
    }
}

impl From<Failed> for MountError {
    ghost use Rattle.std.specs.Prelude.{◌≡◌};
    ghost use Rattle.hl_recovery.specs.declared.stop.MountError.TheVariants.{DiskFault};

    ghost from_gives = { λ _ stop. stop ≡ DiskFault };

    fn from(_e: Failed) -> MountError {
        MountError::DiskFault
    }
}
