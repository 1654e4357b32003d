//! Why a look at the rules of a disk stops.

use hl_media::Failed;
use hl_nodes::Rule;
use std::alloc::{AllocError, AllocFailed};

/// Why a look at the rules of a disk stops.
#[derive(Clone, Copy, Debug, PartialEq, Eq)]
pub enum CheckError {
    /// The disk breaks this rule at this block.
    Damaged { block: u32, rule: Rule },
    /// A read failed.
    DiskFault,
    Memory,
}

impl From<AllocError> for CheckError {
    ghost use Rattle.std.specs.Prelude.{◌≡◌};
    ghost use Rattle.hl_survey.specs.declared.check_error.CheckError.TheVariants.{Memory};

    ghost from_gives = { λ _ e. e ≡ Memory };

    fn from(_: AllocError) -> CheckError {
        CheckError::Memory
    }
}

impl<T: Drop> From<AllocFailed<T>> for CheckError {
    ghost use Rattle.std.specs.Prelude.{◌≡◌};
    ghost use Rattle.hl_survey.specs.declared.check_error.CheckError.TheVariants.{Memory};

    ghost from_gives = { λ _ e. e ≡ Memory };

    fn from(_: AllocFailed<T>) -> CheckError {
        CheckError::Memory
    }
}

impl From<Failed> for CheckError {
    ghost use Rattle.std.specs.Prelude.{◌≡◌};
    ghost use Rattle.hl_survey.specs.declared.check_error.CheckError.TheVariants.{DiskFault};

    ghost from_gives = { λ _ e. e ≡ DiskFault };

    fn from(_: Failed) -> CheckError {
        CheckError::DiskFault
    }
}
