//! Why a site is refused.

use crate::key::Key;
use std::alloc::AllocFailed;
use thiserror::Error;

/// Why a site text, or the devices beside it, are refused, in the order in which it is tried
/// (`docs/FORMATS.md`, "Site file").
#[derive(Clone, Copy, Debug, PartialEq, Eq, Error)]
pub enum SiteError {
    /// The text is no TOML document.
    #[error("the site file is no TOML document")]
    NotToml,
    /// The key is missing, or its value is of another type.
    #[error("the site file lacks {0:?}")]
    Missing(Key),
    /// The key has this value, which is off its limits; for the volumes it is their number, or the
    /// slots of the first one that has too few or too many.
    #[error("the site file has {1} for {0:?}, which is out of range")]
    OutOfRange(Key, i64),
    /// The tables would fill so many blocks, which is more than half a segment.
    #[error("the tables would fill {0} blocks, which is more than half a segment")]
    TablesTooLarge(u32),
    /// The machine has fewer blocks than these, which the site needs.
    #[error("the machine has fewer than {0} blocks")]
    TooSmall(u32),
    /// The first volume whose slots differ, or that the site or the rack alone has.
    #[error("volume {0} of the rack is not that of the site")]
    OtherRack(u32),
    /// Memory ran out.
    #[error("out of memory")]
    Memory,
}

impl<T: Drop> From<AllocFailed<T>> for SiteError {
    ghost use Rattle.std.specs.Prelude.{◌≡◌};
    ghost use Rattle.hl_site.specs.declared.error.SiteError.TheVariants.{Memory};

    ghost from_gives = { λ _ e. e ≡ Memory };

    fn from(_failed: AllocFailed<T>) -> SiteError {
        SiteError::Memory
    }
}
