//! The blocks that a unit or a checkpoint brings.

ghost use Rattle.std.specs.Prelude.{◌≡◌, ◌<◌, ◌^◌, [], length, slice_index_or};
ghost use Rattle.hl_log.specs.Loads.{contents_of, records_of};

use hl_bytes::{Block, BlockRecord};
use hl_summary::TABLE;

/// Blocks with the records that say which they are, or the blocks of the tables, from the first on.
#[derive(Clone, Copy)]
pub enum Load<'a> {
    Blocks(&'a [(BlockRecord, Block)]),
    Tables(&'a [Block]),
}

/// The bytes of a block, which are 4,096.
fn bytes_of(block: &Block) -> &[u8]
    ensures value { result.now ≡ block.now.bytes }
    ensures size { length result.now ≡ 4096 }
{
    &block.bytes
}

impl<'a> Load<'a> {
    /// How many blocks there are.
    pub(crate) fn len(&self) -> usize
        ensures records { result ≡ length (records_of self.now) }
        ensures contents { result ≡ length (contents_of self.now) }
    {
        match self {
            Load::Blocks(blocks) => blocks.len(),
            Load::Tables(blocks) => blocks.len(),
        }
    }

    /// Which block this is. Table blocks are fewer than 2^32.
    pub(crate) fn record(&self, i: usize) -> BlockRecord
        requires within { i < length (records_of self.now) }
        requires few { length (records_of self.now) < 2 ^ 32 }
        ensures { result ≡ slice_index_or (records_of self.now) i result }
    {
        match self {
            Load::Blocks(blocks) => blocks[i].0,
            Load::Tables(_) => BlockRecord {
                ino: i as u32,
                index: TABLE,
            },
        }
    }

    /// What the block holds.
    pub(crate) fn bytes(&self, i: usize) -> &[u8]
        requires within { i < length (contents_of self.now) }
        requires few { length (contents_of self.now) < 2 ^ 32 }
        ensures value { result.now ≡ slice_index_or (contents_of self.now) i [] }
        ensures size { length result.now ≡ 4096 }
    {
        match self {
            Load::Blocks(blocks) => bytes_of(&blocks[i].1),
            Load::Tables(blocks) => bytes_of(&blocks[i]),
        }
    }
}
