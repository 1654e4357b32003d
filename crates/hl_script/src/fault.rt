//! Why no line of an input is given.

ghost use Rattle.std.specs.Prelude.{◌≡◌};
ghost use Rattle.hl_script.specs.declared.fault.LineFault.TheVariants.{Memory};

use std::alloc::AllocError;

/// Why no line is given. What is left of the input stays, so the call may be made again.
#[derive(Clone, Copy, Debug, PartialEq, Eq)]
pub enum LineFault {
    /// The source failed.
    Input,
    /// The line has more than 140,000 bytes, or ends past the limit on the input.
    TooLong,
    Memory,
}

impl From<AllocError> for LineFault {
    ghost from_gives = { λ _ e. e ≡ Memory };

    fn from(_e: AllocError) -> LineFault {
        LineFault::Memory
    }
}
