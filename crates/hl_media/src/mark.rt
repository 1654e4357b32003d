//! What tells one segment of a volume from another.

/// The serial that a tertiary segment carries, and the SHA-256 of its bytes.
#[derive(Clone, Copy, Debug, PartialEq, Eq)]
pub struct Mark {
    pub serial: u64,
    pub digest: [u8; 32],
}
