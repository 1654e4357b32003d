//! What a survey finds.

use hl_inode::Inode;

/// An inode of a disk, where it lies, and the address of each of its blocks, one for each 4,096 bytes begun.
#[derive(Drop)]
pub struct FoundInode {
    pub address: u32,
    pub inode: Inode,
    /// 4,294,967,295 for a hole.
    pub pointers: Vec<u32>,
}
