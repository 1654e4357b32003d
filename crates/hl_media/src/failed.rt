//! The failure of a device.

/// A device failed. Its counts say that it was the device.
#[derive(Clone, Copy, Debug, PartialEq, Eq)]
pub struct Failed;
