//! The drafts with their new blocks.

ghost use Rattle.std.specs.Prelude.{◌≡◌, ◌≢◌, ℕ, ◌+◌, ◌*◌, ◌<◌, ◌≤◌, ◌^◌, ◌++◌, ◌∷◌, [], false, IfOk, OnOk, OnErr, IfSome, Some, None, length, option_map};
ghost use Rattle.std.specs.Option.{option_copied};
ghost use Rattle.std.specs.Vec.{vec_capacity};
ghost use Rattle.hl_overlay.specs.Pointing.{IsAddressed, IsNotNew, is_hole_pointer};
ghost use Rattle.hl_overlay.specs.Drafting.{IsDraft};
ghost use Rattle.hl_overlay.specs.DraftTables.{CanShape, HasBlock, IsDraftTable, Redrafts, Trims, draft_of, freed_of, others_of};
ghost use Rattle.hl_overlay.specs.Overlays.{AreOthersNamed, DropsBlock, HasRoomFor, IsDraftBlock, Shapes, where_in};

use crate::draft::{NodeDraft, Shape};
use crate::drafts::Drafts;
use crate::pointers::Pointer;
use hl_bytes::{BLOCK, Block, BlockRecord};
use std::alloc::{AllocError, Global};
use std::marker::Model;

/// What the overlay holds for a block of a drafted node.
#[derive(Clone, Copy, PartialEq)]
pub enum BlockNow<'a> {
    /// Zeros.
    Hole,
    /// What lies at this address of the disk.
    Kept(u32),
    /// The block at `position` of the segment with the serial, at the address that the next unit gives it.
    Moved {
        addr: u32,
        serial: u64,
        position: u32,
    },
    /// New bytes.
    Bytes(&'a [u8]),
}

/// The drafts, and the bytes of their new blocks in the order in which the unit has them.
#[derive(Drop)]
pub struct Overlay {
    pub(crate) drafts: Drafts,
    pub(crate) blocks: Vec<(BlockRecord, Block)>,
    pub(crate) room: usize,
}

impl Model for Overlay {
    ghost use Rattle.std.specs.Vec.{vec_len, vec_capacity};
    ghost use Rattle.hl_overlay.specs.Overlays.{OverlayValue, IsOverlay, HasBlockRoom};

    ghost Value = { OverlayValue };

    ghost view = { λ o. record { drafts = o.drafts; blocks = o.blocks.items; room = o.room } };

    ghost invariant = { λ o. record {
      named : IsOverlay (record { drafts = o.drafts; blocks = o.blocks.items; room = o.room });
      room : HasBlockRoom (vec_len o.blocks) (vec_capacity o.blocks) o.room;
    } };
}

/// A block of these bytes.
fn copied_block(bytes: &[u8]) -> Block
    requires { length bytes.now ≡ 4096 }
    ensures { result.bytes ≡ bytes.now }
{
    let mut block = Block { bytes: [0; BLOCK] };
    block.bytes.copy_from_slice(bytes);
    block
}

impl Overlay {
    ghost use Rattle.hl_overlay.specs.Overlays.{IsEmpty, IsBlockNow, IsOverlay, IsWholeBlock, IsWholeOverlay, KeepsDrafts, PutsBlock, WritesOver, holding, holding_of};
    ghost use Rattle.hl_overlay.specs.Overlays.Holding.{Fresh, GoesAway, Zeros};

    /// An overlay for the numbers from 0 on, none of them drafted. A site has at most 2,048.
    pub fn new(alloc: Global, inodes: u32) -> Result<Overlay, AllocError>
        requires { inodes ≤ 2048 }
        ensures { IfOk result (IsEmpty inodes) }
    {
        Ok(Overlay {
            drafts: Drafts::new(alloc, inodes)?,
            blocks: Vec::new(alloc),
            room: 0,
        })
    }

    /// The draft of a number.
    pub fn draft(&self, ino: u32) -> Option<&NodeDraft>
        requires { ino < length self.now.drafts.places }
        ensures value { option_copied result ≡ draft_of self.now.drafts ino }
        ensures is { IfSome result (λ draft. IsDraft draft.now) }
        ensures whole { IsWholeOverlay self.now }
    {
        self.drafts.get(ino)
    }

    /// How many numbers there are, from 0 on.
    pub fn numbers(&self) -> u32
        ensures { result ≡ length self.now.drafts.places }
    {
        self.drafts.numbers()
    }

    /// For how many more new blocks there is room.
    pub fn room(&self) -> usize
        ensures { result ≡ self.now.room }
    {
        self.room
    }

    /// The drafts in their order.
    pub fn drafts(&self) -> &[NodeDraft]
        ensures value { result.now ≡ self.now.drafts.items }
        ensures is { IsDraftTable self.now.drafts }
    {
        self.drafts.items()
    }

    /// How many drafts are held.
    pub fn held(&self) -> usize
        ensures { result ≡ length self.now.drafts.items }
    {
        self.drafts.items().len()
    }

    /// How many new blocks there are.
    pub fn new_blocks(&self) -> u32
        ensures value { result ≡ length self.now.blocks }
        ensures most { result ≤ 1036 * length self.now.drafts.places }
    {
        self.blocks.len() as u32
    }

    /// How many blocks the next unit has besides the new ones: inodes and pointer blocks.
    pub fn others(&self) -> u32
        ensures value { result ≡ others_of self.now.drafts }
        ensures most { result ≤ 2 * length self.now.drafts.places }
        ensures whole { IsWholeOverlay self.now }
    {
        self.drafts.others()
    }

    /// Tells the contracts of a caller what an overlay keeps. It does nothing.
    pub fn tell_whole(&self)
        ensures { IsWholeOverlay self.now }
    {
        let _ = self.drafts.others();
    }

    /// How many numbers the next unit frees.
    pub fn freed(&self) -> u32
        ensures value { result ≡ length (freed_of self.now.drafts.items) }
        ensures most { result ≤ length self.now.drafts.places }
    {
        self.drafts.freed()
    }

    /// What stands in block `i` of a drafted node. None where the number isn't drafted.
    pub fn block(&self, ino: u32, i: u32) -> Option<BlockNow<'_>>
        requires number { ino < length self.now.drafts.places }
        requires within { i < 1036 }
        ensures now { IsBlockNow result (holding self.now ino i) }
        ensures size { IfSome result IsWholeBlock }
    {
        match self.drafts.get(ino)?.pointers.get(i) {
            Pointer::Hole => Some(BlockNow::Hole),
            Pointer::Kept(addr) => Some(BlockNow::Kept(addr)),
            Pointer::Moved {
                addr,
                serial,
                position,
            } => Some(BlockNow::Moved {
                addr,
                serial,
                position,
            }),
            Pointer::New(n) => Some(BlockNow::Bytes(&self.blocks[n as usize].1.bytes)),
        }
    }

    /// Adds the draft of a number that has none, as it was read, and makes room for so many new blocks besides those
    /// that there was room for. There is no room for 2^32 blocks.
    pub fn admit(&mut self, draft: NodeDraft, count: u32) -> Result<(), AllocError>
        requires number { draft.ino < length self.old.drafts.places }
        requires absent { draft_of self.old.drafts draft.ino ≡ None }
        requires is { IsDraft draft }
        requires unchanged { draft.changed ≡ false }
        ensures ok { OnOk result (Redrafts self.old.drafts self.new.drafts draft.ino draft) }
        ensures last { OnOk result (self.new.drafts.items ≡ self.old.drafts.items ++ draft ∷ []) }
        ensures room { OnOk result (self.new.room ≡ self.old.room + count) }
        ensures blocks { self.new.blocks ≡ self.old.blocks }
        ensures err { OnErr result (self.new ≡ self.old) }
    {
        let room = self.more_room(count)?;
        self.blocks.reserve(room)?;
        self.drafts.admit(draft)?;
        self.room = room;
        Ok(())
    }

    /// Makes room for so many new blocks besides those that there was room for. There is no room for 2^32 blocks.
    pub fn reserve(&mut self, count: u32) -> Result<(), AllocError>
        ensures ok { OnOk result (self.new ≡ record self.old { room = self.old.room + count }) }
        ensures err { OnErr result (self.new ≡ self.old) }
    {
        let room = self.more_room(count)?;
        self.blocks.reserve(room)?;
        self.room = room;
        Ok(())
    }

    /// Gives the room up that no block has taken.
    pub fn release(&mut self)
        ensures { self.new ≡ record self.old { room = 0 } }
    {
        self.room = 0;
    }

    /// Lets the drafts that aren't changed go where more than `most` are held. It takes no memory, and time in the
    /// drafts held.
    pub fn trim(&mut self, most: usize)
        ensures drafts { Trims most self.old.drafts self.new.drafts }
        ensures was { IsWholeOverlay self.old }
        ensures whole { IsWholeOverlay self.new }
        ensures blocks { self.new.blocks ≡ self.old.blocks }
        ensures room { self.new.room ≡ self.old.room }
    {
        self.drafts.trim(most);
    }

    /// Puts bytes into a block of a drafted node, which there is room for, and answers where it was before.
    pub fn put(&mut self, ino: u32, i: u32, bytes: &[u8]) -> Pointer
        requires number { ino < length self.old.drafts.places }
        requires block { HasBlock self.old.drafts ino i }
        requires room { 0 < self.old.room }
        requires size { length bytes.now ≡ 4096 }
        ensures put { PutsBlock self.old self.new ino i (Fresh bytes.now) }
        ensures rest { KeepsDrafts self.old self.new ino i }
        ensures before { where_in self.old.drafts ino i ≡ Some result }
        ensures room { self.new.room + 1 ≡ self.old.room }
    {
        let before = self.pointer(ino, i);
        match before {
            Pointer::New(n) => self.write_over(n, bytes),
            Pointer::Hole | Pointer::Kept(_) | Pointer::Moved { .. } => {
                self.append(ino, i, bytes)
            }
        }
        before
    }

    /// Makes a block of a drafted node a hole, and answers where it was before.
    pub fn clear(&mut self, ino: u32, i: u32) -> Pointer
        requires number { ino < length self.old.drafts.places }
        requires block { HasBlock self.old.drafts ino i }
        ensures put { PutsBlock self.old self.new ino i Zeros }
        ensures rest { KeepsDrafts self.old self.new ino i }
        ensures before { where_in self.old.drafts ino i ≡ Some result }
        ensures room { self.new.room ≡ self.old.room }
    {
        self.replace(ino, i, Pointer::Hole)
    }

    /// Says that a block of a drafted node lies at a tertiary address from the next unit on, as the block at `position`
    /// of the segment with the serial, and answers where it was before.
    pub fn set_away(&mut self, ino: u32, i: u32, addr: u32, serial: u64, position: u32) -> Pointer
        requires number { ino < length self.old.drafts.places }
        requires block { HasBlock self.old.drafts ino i }
        requires address { addr ≢ 4294967295 }
        ensures put { PutsBlock self.old self.new ino i (GoesAway addr serial position) }
        ensures rest { KeepsDrafts self.old self.new ino i }
        ensures before { where_in self.old.drafts ino i ≡ Some result }
        ensures room { self.new.room ≡ self.old.room }
    {
        let moved = Pointer::Moved {
            addr,
            serial,
            position,
        };
        self.replace(ino, i, moved)
    }

    /// Says what a drafted node is to be. No block past the size is left.
    pub fn set_shape(&mut self, ino: u32, shape: Option<Shape>)
        requires number { ino < length self.old.drafts.places }
        requires can { CanShape self.old.drafts ino shape }
        ensures drafts { Shapes self.old.drafts self.new.drafts ino shape }
        ensures blocks { self.new.blocks ≡ self.old.blocks }
        ensures room { self.new.room ≡ self.old.room }
    {
        self.drafts.set_shape(ino, shape);
    }

    /// Whether a block of a drafted node is a hole.
    pub fn is_hole(&self, ino: u32, i: u32) -> bool
        requires number { ino < length self.now.drafts.places }
        requires block { HasBlock self.now.drafts ino i }
        ensures { option_map is_hole_pointer (where_in self.now.drafts ino i) ≡ Some result }
    {
        self.pointer(ino, i).is_hole()
    }

    /// Says where a block of a drafted node is that isn't new, and answers where it was before. A new block that it had
    /// is dropped.
    fn replace(&mut self, ino: u32, i: u32, pointer: Pointer) -> Pointer
        requires number { ino < length self.old.drafts.places }
        requires block { HasBlock self.old.drafts ino i }
        requires addressed { IsAddressed pointer }
        requires not_new { IsNotNew pointer }
        ensures put { PutsBlock self.old self.new ino i (holding_of [] pointer) }
        ensures rest { KeepsDrafts self.old self.new ino i }
        ensures before { where_in self.old.drafts ino i ≡ Some result }
        ensures room { self.new.room ≡ self.old.room }
    {
        let before = self.pointer(ino, i);
        self.drafts.point(ino, i, pointer);
        if let Pointer::New(n) = before {
            drop_block(&mut self.drafts, &mut self.blocks, n);
        }
        before
    }

    /// Puts bytes into a new block.
    fn write_over(&mut self, n: u32, bytes: &[u8])
        requires within { n < length self.old.blocks }
        requires room { 0 < self.old.room }
        requires size { length bytes.now ≡ 4096 }
        ensures { WritesOver self.old self.new n bytes.now }
    {
        self.blocks[n as usize].1.bytes.copy_from_slice(bytes);
        self.room -= 1;
    }

    /// Puts bytes into a block of a drafted node that isn't new.
    fn append(&mut self, ino: u32, i: u32, bytes: &[u8])
        requires number { ino < length self.old.drafts.places }
        requires block { HasBlock self.old.drafts ino i }
        requires room { 0 < self.old.room }
        requires size { length bytes.now ≡ 4096 }
        requires other { (n : ℕ) → where_in self.old.drafts ino i ≢ Some (Pointer.New n) }
        requires draft { IsDraftBlock self.old.drafts ino i }
        ensures put { PutsBlock self.old self.new ino i (Fresh bytes.now) }
        ensures rest { KeepsDrafts self.old self.new ino i }
        ensures room { self.new.room + 1 ≡ self.old.room }
    {
        let n = self.blocks.as_slice().len() as u32;
        let record = BlockRecord { ino, index: i };
        let Ok(()) = self.blocks.push((record, copied_block(bytes))) else {
            unreachable!()
        };
        self.drafts.point(ino, i, Pointer::New(n));
        self.room -= 1;
    }

    /// The room with so many blocks more; numbers of blocks have 32 bits.
    fn more_room(&self, count: u32) -> Result<usize, AllocError>
        ensures { IfOk result (HasRoomFor self.now count) }
    {
        let room = self.room + count as usize;
        if self.blocks.len() + room <= u32::MAX as usize {
            Ok(room)
        } else {
            Err(AllocError)
        }
    }

    /// Where a block of a drafted node is.
    fn pointer(&self, ino: u32, i: u32) -> Pointer
        requires number { ino < length self.now.drafts.places }
        requires block { HasBlock self.now.drafts ino i }
        ensures value { where_in self.now.drafts ino i ≡ Some result }
        ensures draft { IsDraftBlock self.now.drafts ino i }
        ensures named { (n : ℕ) → result ≡ Pointer.New n → n < length self.now.blocks }
        ensures is { IsOverlay self.now }
    {
        match self.drafts.get(ino) {
            Some(draft) => draft.pointers.get(i),
            None => unreachable!(),
        }
    }
}

/// Drops a new block that no pointer names. The last one takes its place.
fn drop_block(drafts: &mut Drafts, blocks: &mut Vec<(BlockRecord, Block)>, n: u32)
    requires within { n < length blocks.old.items }
    requires is { IsDraftTable drafts.old }
    requires named { AreOthersNamed n drafts.old blocks.old.items }
    ensures drops { DropsBlock drafts.old drafts.new blocks.old.items blocks.new.items }
    ensures len { length blocks.new.items ≤ length blocks.old.items }
    ensures capacity { vec_capacity blocks.new ≡ vec_capacity blocks.old }
{
    let _ = blocks.swap_remove(n as usize);
    if (n as usize) < blocks.len() {
        let moved = blocks[n as usize].0;
        drafts.point(moved.ino, moved.index, Pointer::New(n));
    }
}
