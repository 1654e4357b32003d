//! The place of an entry.

/// Where an entry stands in the bytes of its directory, and the number that it links.
#[derive(Clone, Copy, Debug, PartialEq, Eq)]
pub struct EntryPlace {
    pub at: usize,
    pub ino: u32,
}
