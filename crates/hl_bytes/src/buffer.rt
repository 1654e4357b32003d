//! A buffer of whole blocks.

use crate::BLOCK;
use std::alloc::{AllocError, Global};
use std::marker::Model;

/// Blocks one after the other, as a segment or a part of one is read and written. Contracts see it
/// as its bytes. It takes memory when it is made, and never again.
#[derive(Drop)]
pub struct SegBuf {
    bytes: Vec<u8>,
}

impl Model for SegBuf {
    ghost use Rattle.std.specs.Prelude.{ℕ, List};
    ghost use Rattle.hl_bytes.specs.Wholes.{IsBuffer};

    ghost Value = { List ℕ };

    ghost view = { λ b. b.bytes.items };

    ghost invariant = { λ b. IsBuffer b.bytes.items };
}

impl SegBuf {
    ghost use Rattle.std.specs.Prelude.{◌≡◌, ◌≤◌, ◌+◌, ◌*◌, IfOk, length};
    ghost use Rattle.std.specs.Borrow.{sem};
    ghost use Rattle.hl_bytes.specs.Fields.{zeros};
    ghost use Rattle.hl_bytes.specs.Buffers.{part_of, LendsPart};

    /// A buffer of `blocks` blocks of zeros.
    pub fn new(alloc: Global, blocks: u32) -> Result<SegBuf, AllocError>
        ensures value { IfOk result (λ buffer. buffer ≡ zeros (4096 * blocks)) }
        ensures len { IfOk result (λ buffer. length buffer ≡ 4096 * blocks) }
    {
        let bytes = vec![in alloc; 0; BLOCK * blocks as usize]?;
        Ok(SegBuf { bytes })
    }

    /// The number of blocks.
    pub fn blocks(&self) -> u32
        ensures { 4096 * result ≡ length self.now }
    {
        (self.bytes.len() / BLOCK) as u32
    }

    /// The bytes of `count` blocks from block `from` on.
    pub fn part(&self, from: u32, count: u32) -> &[u8]
        requires { 4096 * (from + count) ≤ length self.now }
        ensures value { result.now ≡ part_of self.now from count }
        ensures len { length result.now ≡ 4096 * count }
    {
        let start = BLOCK * from as usize;
        &self.bytes[start..start + BLOCK * count as usize]
    }

    /// The bytes of a block.
    pub fn block(&self, i: u32) -> &[u8]
        requires { 4096 * (i + 1) ≤ length self.now }
        ensures value { result.now ≡ part_of self.now i 1 }
        ensures len { length result.now ≡ 4096 }
    {
        self.part(i, 1)
    }

    /// The bytes of `count` blocks from block `from` on, for writing. What is written through them
    /// changes these blocks alone.
    pub fn part_mut(&mut self, from: u32, count: u32) -> &mut [u8]
        requires { 4096 * (from + count) ≤ length self.old }
        ensures* writes_back { sem 𝓛 (LendsPart self.entry from result) }
        ensures value { result.now ≡ part_of self.old from count }
        ensures len { length result.now ≡ 4096 * count }
    {
        let start = BLOCK * from as usize;
        self.bytes.slice_mut(start..start + BLOCK * count as usize)
    }

    /// The bytes of a block, for writing. What is written through them changes this block alone.
    pub fn block_mut(&mut self, i: u32) -> &mut [u8]
        requires { 4096 * (i + 1) ≤ length self.old }
        ensures* writes_back { sem 𝓛 (LendsPart self.entry i result) }
        ensures value { result.now ≡ part_of self.old i 1 }
        ensures len { length result.now ≡ 4096 }
    {
        self.part_mut(i, 1)
    }
}
