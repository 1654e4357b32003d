//! One block.

/// The bytes of one block.
#[derive(Drop)]
pub struct Block {
    pub bytes: [u8; super::BLOCK],
}
