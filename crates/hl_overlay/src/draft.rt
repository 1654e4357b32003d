//! What one node is to be.

ghost use Rattle.std.specs.Prelude.{◌≡◌, ℕ, ◌+◌, ◌-◌, ◌<◌, ◌≤◌, false, IfOk, IsTrue, length};
ghost use Rattle.hl_inode.specs.Inodes.{IsInode};
ghost use Rattle.hl_placed.specs.Blocks.{blocks_of};
ghost use Rattle.hl_overlay.specs.Pointing.{has_far};
ghost use Rattle.hl_overlay.specs.Drafting.{IsDraft, IsFilled, IsReadDraft, IsUnusedDraft, KeepsDirect, blocks_of_shape, count_for, is_freed, with_pointer};

use crate::pointers::{DIRECT, Pointer, Pointers};
use hl_addr::NOTHING;
use hl_inode::{Inode, Kind, pointer};
use std::alloc::{AllocError, Global};

/// What a node in use is, besides its blocks.
#[derive(Clone, Copy, Debug, PartialEq, Eq)]
pub struct Shape {
    pub kind: Kind,
    /// In bytes, at most 4,243,456.
    pub size: u64,
}

/// What the node of a number is to be.
#[derive(Drop)]
pub struct NodeDraft {
    pub ino: u32,
    /// The address of its inode's block, 4,294,967,295 where the number isn't in use on the disk.
    pub own: u32,
    /// None where the number is to be unused.
    pub shape: Option<Shape>,
    /// The address of a pointer block that names the blocks from 12 on as they are here, 4,294,967,295 where there is
    /// none.
    pub single: u32,
    pub pointers: Pointers,
    /// Whether the next unit is to have it. Else the draft is the node as it was read.
    pub changed: bool,
}

/// How many blocks a size takes.
#[tactic(auto, unfolding(hl_placed::specs::Blocks::blocks_of))]
pub(crate) fn blocks_of(size: u64) -> u32
    requires { size ≤ 4243456 }
    ensures value { result ≡ blocks_of size }
    ensures most { result ≤ 1036 }
{
    size.div_ceil(4096) as u32
}

impl NodeDraft {
    /// The draft of a number that isn't in use.
    pub fn unused(alloc: Global, ino: u32) -> Result<NodeDraft, AllocError>
        requires { 1 ≤ ino }
        ensures value { IfOk result (IsUnusedDraft ino) }
        ensures is { IfOk result IsDraft }
    {
        Ok(NodeDraft {
            ino,
            own: NOTHING,
            shape: None,
            single: NOTHING,
            pointers: Pointers::holes(alloc)?,
            changed: false,
        })
    }

    /// The draft of a node that was read, by its inode at an address. Its blocks from 12 on are holes until
    /// `read_pointers` says where they are.
    pub fn of(alloc: Global, own: u32, inode: &Inode) -> Result<NodeDraft, AllocError>
        requires { IsInode inode.now }
        ensures value { IfOk result (IsReadDraft own inode.now) }
        ensures is { IfOk result IsDraft }
    {
        let mut pointers = Pointers::holes(alloc)?;
        'direct: for i in 0..DIRECT {
            pointers.set(i, Pointer::to(inode.direct[i as usize]));
        }
        Ok(NodeDraft {
            ino: inode.number,
            own,
            shape: Some(Shape {
                kind: inode.kind,
                size: inode.size,
            }),
            single: inode.single,
            pointers,
            changed: false,
        })
    }

    /// Says where the blocks from 12 on are, by the pointer block that was read.
    pub fn read_pointers(&mut self, block: &[u8])
        requires size { length block.now ≡ 4096 }
        requires is { IsDraft self.old }
        requires unchanged { self.old.changed ≡ false }
        ensures filled { IsFilled block.now self.new }
        ensures direct { KeepsDirect self.old self.new }
        ensures rest { self.new ≡ record self.old { pointers = self.new.pointers } }
        ensures is { IsDraft self.new }
    {
        let end = self.blocks();
        'far: for i in DIRECT..end {
            self.pointers
                .set(i, Pointer::to(pointer(block, i - DIRECT)));
        }
    }

    /// How many blocks its size takes.
    pub fn blocks(&self) -> u32
        requires { IsDraft self.now }
        ensures value { result ≡ blocks_of_shape self.now.shape }
        ensures most { result ≤ 1036 }
    {
        match self.shape {
            Some(shape) => blocks_of(shape.size),
            None => 0,
        }
    }

    /// Says where a block is. The unit is to have the inode then, and a pointer block that names it.
    pub(crate) fn point(&mut self, i: u32, pointer: Pointer)
        requires { i < 1036 }
        ensures { self.new ≡ with_pointer self.old i pointer }
    {
        self.pointers.set(i, pointer);
        self.changed = true;
        if DIRECT <= i {
            self.single = NOTHING;
        }
    }

    /// Whether a block from 12 on isn't a hole, so that it has a pointer block.
    pub fn has_far(&self) -> bool
        ensures value { result ≡ has_far self.now.pointers }
        ensures count { length self.now.pointers ≡ 1036 }
    {
        self.pointers.has_far()
    }

    /// How many blocks the unit is to have of it besides its new ones: its inode, and its pointer block.
    pub fn others(&self) -> u32
        ensures value { result ≡ count_for self.now }
        ensures most { result ≤ 2 }
    {
        if !self.changed || self.shape.is_none() {
            0
        } else if self.single == NOTHING && self.has_far() {
            2
        } else {
            1
        }
    }

    /// Whether the unit is to say that its number is free.
    pub fn is_freed(&self) -> bool
        ensures { result ≡ is_freed self.now }
    {
        self.changed && self.shape.is_none() && self.own != NOTHING
    }
}
