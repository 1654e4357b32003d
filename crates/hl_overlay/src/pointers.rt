//! Where the blocks of a node are to be.

ghost use Rattle.std.specs.Prelude.{◌≡◌, ◌<◌, ◌≤◌, IfOk, length, replicate, slice_set};
ghost use Rattle.hl_overlay.specs.Pointing.{blocks_in, has_far, is_hole_pointer, pointer_to, where_is};

use hl_addr::NOTHING;
use std::alloc::{AllocError, Global};
use std::marker::Model;

/// The most blocks of a node.
pub const BLOCKS_MAX: u32 = 1_036;

/// The blocks that an inode names itself. Those behind them are named by its pointer block.
pub const DIRECT: u32 = 12;

/// Where a block of a node is to be. No address is 4,294,967,295.
#[derive(Clone, Copy, Debug, PartialEq, Eq)]
pub enum Pointer {
    /// Zeros, and no block.
    Hole,
    /// At the address that it has on the disk, in the log or in a tertiary segment.
    Kept(u32),
    /// At a tertiary address that the next unit gives it: it is the block at `position` of the segment with the serial.
    Moved {
        addr: u32,
        serial: u64,
        position: u32,
    },
    /// Among the overlay's new blocks, at this place.
    New(u32),
}

impl Pointer {
    /// The pointer that an address of the disk stands for.
    pub(crate) fn to(addr: u32) -> Pointer
        ensures { result ≡ pointer_to addr }
    {
        if addr == NOTHING {
            Pointer::Hole
        } else {
            Pointer::Kept(addr)
        }
    }

    pub fn is_hole(self) -> bool
        ensures { result ≡ is_hole_pointer self }
    {
        match self {
            Pointer::Hole => true,
            Pointer::Kept(_) | Pointer::Moved { .. } | Pointer::New(_) => false,
        }
    }

    /// One block, and none for a hole.
    fn blocks_in(self) -> u32
        ensures value { result ≡ blocks_in self }
        ensures most { result ≤ 1 }
    {
        if self.is_hole() { 0 } else { 1 }
    }
}

/// A pointer for each of the 1,036 blocks that a node may have. How many from 12 on aren't holes is kept.
#[derive(Drop)]
pub struct Pointers {
    vec: Vec<Pointer>,
    far: u32,
}

impl Model for Pointers {
    ghost use Rattle.std.specs.Prelude.{List as Items};
    ghost use Rattle.hl_overlay.specs.declared.pointers.Pointer.{Pointer};
    ghost use Rattle.hl_overlay.specs.Pointing.{ArePointers};

    ghost Value = { Items Pointer };

    ghost view = { λ p. p.vec.items };

    ghost invariant = { λ p. ArePointers p.vec.items p.far };
}

impl Pointers {
    /// No block at all.
    pub fn holes(alloc: Global) -> Result<Pointers, AllocError>
        ensures { IfOk result (λ p. p ≡ replicate 1036 Pointer.Hole) }
    {
        let vec = vec![in alloc; Pointer::Hole; 1_036]?;
        Ok(Pointers { vec, far: 0 })
    }

    /// The pointer of block `i`.
    pub fn get(&self, i: u32) -> Pointer
        requires { i < 1036 }
        ensures value { result ≡ where_is self.now i }
        ensures count { length self.now ≡ 1036 }
    {
        self.vec[i as usize]
    }

    /// Says where block `i` is.
    pub fn set(&mut self, i: u32, pointer: Pointer)
        requires { i < 1036 }
        ensures value { self.new ≡ slice_set self.old i pointer }
        ensures count { length self.old ≡ 1036 }
    {
        let before = self.vec[i as usize];
        self.vec[i as usize] = pointer;
        if DIRECT <= i {
            self.far = self.far + pointer.blocks_in() - before.blocks_in();
        }
    }

    /// Whether a block from 12 on isn't a hole.
    pub fn has_far(&self) -> bool
        ensures value { result ≡ has_far self.now }
        ensures count { length self.now ≡ 1036 }
    {
        self.far != 0
    }
}
