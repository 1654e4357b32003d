//! An entry of a directory.

use hl_tree::List;

/// A name, and the number of the inode that it names.
#[derive(Drop)]
pub struct Entry {
    pub ino: u32,
    /// From 1 to 255 bytes, without 0 and 47.
    pub name: List<u8>,
}
