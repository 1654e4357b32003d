//! Changes of nodes. What they need is prepared first, and then none of them takes memory or can fail.

ghost use Rattle.std.specs.Prelude.{◌≡◌, ◌≢◌, ℕ, ◌+◌, ◌<◌, ◌≤◌, IsSome, Some, None, length, slice_index, slice_set};
ghost use Rattle.hl_placed.specs.Blocks as blocks;
ghost use Rattle.hl_placed.specs.Blocks.{blocks_of};
ghost use Rattle.hl_nodes.specs.Blocks.{LiesAway};
ghost use Rattle.hl_overlay.specs.declared.draft.NodeDraft.{NodeDraft as Draft};
ghost use Rattle.hl_overlay.specs.DraftTables.{CanShape, HasBlock, draft_of};
ghost use Rattle.hl_overlay.specs.Overlays.{holding};
ghost use Rattle.hl_overlay.specs.Overlays.Holding.{Zeros};
ghost use Rattle.hl_overlaid.specs.Changes.{KeepsKind};
ghost use Rattle.hl_store.specs.Values.{layout};
ghost use Rattle.hl_store.specs.Shapes.{IsNumber};
ghost use Rattle.hl_store.specs.Changes.{Always, DropsBetween, DropsFrom, HasSegmentAt, IsOfKind, MayGoAway};
ghost use Rattle.hl_store.specs.Changes.{PutsInto, Reshapes, StaysIn, Touches, shape_of};

use crate::answers::Node;
use crate::footing::drafted_footing;
use crate::store::Store;
use hl_addr::Place;
use hl_media::Machine;
use hl_overlay::{Pointer, Shape};
use hl_tseg::Slot;

/// How many blocks a size takes.
#[tactic(auto, unfolding(hl_placed::specs::Blocks::blocks_of))]
fn blocks_of(size: u64) -> u32
    requires { size ≤ 4243456 }
    ensures value { result ≡ blocks_of size }
    ensures most { result ≤ 1036 }
{
    size.div_ceil(4096) as u32
}

impl<M: Machine> Store<M> {
    /// Puts 4096 bytes into block `i` of a node that is prepared, for which room was made and which its size reaches. It
    /// takes the room of one new block.
    pub fn put(&mut self, ino: u32, i: u32, bytes: &[u8])
        requires number { IsNumber self.old ino }
        requires block { HasBlock self.old.overlay.drafts ino i }
        requires room { 0 < self.old.overlay.room }
        requires size { length bytes.now ≡ 4096 }
        ensures puts { PutsInto self.old self.new ino i Always (blocks.Here bytes.now) }
        ensures room { self.new.overlay.room + 1 ≡ self.old.overlay.room }
    {
        let k = self.log.geometry().k;
        let was = drafted_footing(&self.overlay, ino);
        let before = self.overlay.put(ino, i, bytes);
        let is = drafted_footing(&self.overlay, ino);
        self.counts.change_block(k, i, &was, before, 1, &is);
    }

    /// Says that block `i` of a file that is prepared lies at a tertiary address from the next unit on, in a slot that holds
    /// or is to hold a segment.
    pub fn set_away(&mut self, ino: u32, i: u32, addr: u32)
        requires number { IsNumber self.old ino }
        requires block { HasBlock self.old.overlay.drafts ino i }
        requires away { MayGoAway self.old ino addr }
        ensures puts { (serial position : ℕ)
            → LiesAway (layout self.old) self.old.tables.slots addr serial position
            → PutsInto self.old self.new ino i (StaysIn self.old serial)
            (blocks.Away serial position) }
        ensures room { self.new.overlay.room ≡ self.old.overlay.room }
    {
        let k = self.log.geometry().k;
        let (serial, position) = self.segment_at(addr);
        let was = drafted_footing(&self.overlay, ino);
        let before = self.overlay.set_away(ino, i, addr, serial, position);
        let is = drafted_footing(&self.overlay, ino);
        self.counts.change_block(k, i, &was, before, 0, &is);
    }

    /// Says what a node that is prepared is: it comes into use with the kind, or keeps it. Its blocks past the new size are
    /// gone, and those that it gains are holes.
    pub fn set_node(&mut self, ino: u32, node: &Node)
        requires number { IsNumber self.old ino }
        requires prepared { IsSome (draft_of self.old.overlay.drafts ino) }
        requires kind { IsOfKind self.old ino node.now.kind }
        requires size { node.now.size ≤ 4243456 }
        ensures shape { Reshapes self.old self.new ino node.now.used (Some (shape_of node.now)) }
        ensures uses { self.new.uses ≡ slice_set self.old.uses ino node.now.used }
        ensures used { slice_index self.new.uses ino ≡ node.now.used }
    {
        self.drop_from(ino, blocks_of(node.size));
        self.touch(ino, node.used);
        let shape = Shape {
            kind: node.kind,
            size: node.size,
        };
        self.reshape(ino, Some(shape));
    }

    /// Makes the number of a node that is prepared free, and its blocks are gone.
    pub fn free(&mut self, ino: u32)
        requires number { IsNumber self.old ino }
        requires prepared { IsSome (draft_of self.old.overlay.drafts ino) }
        ensures shape { Reshapes self.old self.new ino (slice_index self.old.uses ino) None }
        ensures uses { self.new.uses ≡ self.old.uses }
    {
        self.drop_from(ino, 0);
        self.reshape(ino, None);
    }

    /// Sets the last use of a number. Nothing is dirty by that.
    pub fn touch(&mut self, ino: u32, now: u64)
        requires number { IsNumber self.old ino }
        ensures touches { Touches self.old self.new ino now }
        ensures uses { self.new.uses ≡ slice_set self.old.uses ino now }
    {
        self.overlay.tell_whole();
        self.uses[ino as usize] = now;
    }

    /// The serial of the segment that the slot at an address holds, and the block of it.
    fn segment_at(&self, addr: u32) -> (u64, u32)
        requires { HasSegmentAt self.now addr }
        ensures lies { LiesAway (layout self.now) self.now.tables.slots addr result.0 result.1 }
        ensures only { (serial position : ℕ)
            → LiesAway (layout self.now) self.now.tables.slots addr serial position
            → (serial ≡ result.0) × (position ≡ result.1) }
        ensures there { addr ≢ 4294967295 }
    {
        let geometry = self.log.geometry();
        let Place::Tertiary {
            volume,
            slot,
            block,
        } = geometry.class(addr)
        else {
            unreachable!()
        };
        let tseg = geometry.tseg_of(volume, slot);
        match self.tables.slots().slot(tseg) {
            Slot::Staged { serial, .. } | Slot::Home { serial } => (serial, block),
            Slot::Free | Slot::Spoilt => unreachable!(),
        }
    }

    /// Makes a block of a drafted node a hole.
    fn clear(&mut self, ino: u32, i: u32)
        requires number { IsNumber self.old ino }
        requires block { HasBlock self.old.overlay.drafts ino i }
        ensures puts { PutsInto self.old self.new ino i Always blocks.Hole }
        ensures hole { holding self.new.overlay ino i ≡ Some Zeros }
        ensures others { (j : ℕ) → j ≢ i
            → holding self.new.overlay ino j ≡ holding self.old.overlay ino j }
        ensures room { self.new.overlay.room ≡ self.old.overlay.room }
    {
        let k = self.log.geometry().k;
        let was = drafted_footing(&self.overlay, ino);
        let before = self.overlay.clear(ino, i);
        let is = drafted_footing(&self.overlay, ino);
        self.counts.change_block(k, i, &was, before, 0, &is);
    }

    /// Makes the blocks of a drafted node holes from one on.
    fn drop_from(&mut self, ino: u32, from: u32)
        requires number { IsNumber self.old ino }
        requires prepared { IsSome (draft_of self.old.overlay.drafts ino) }
        ensures { DropsFrom self.old self.new ino from }
    {
        let end = match self.overlay.draft(ino) {
            Some(draft) => draft.blocks(),
            None => unreachable!(),
        };
        'blocks: for i in from..end {
            self.drop_block(ino, i);
        }
        self.overlay.tell_whole();
    }

    /// Makes a block of a drafted node a hole, if it isn't.
    fn drop_block(&mut self, ino: u32, i: u32)
        requires number { IsNumber self.old ino }
        requires block { HasBlock self.old.overlay.drafts ino i }
        ensures { DropsBetween self.old self.new ino i (i + 1) }
    {
        if !self.overlay.is_hole(ino, i) {
            self.clear(ino, i);
        }
    }

    /// Says of what shape a drafted node is, which has no block past that size.
    fn reshape(&mut self, ino: u32, shape: Option<Shape>)
        requires number { IsNumber self.old ino }
        requires can { CanShape self.old.overlay.drafts ino shape }
        requires kind { (d : Draft)
            → draft_of self.old.overlay.drafts ino ≡ Some d → KeepsKind d shape }
        ensures shape { Reshapes self.old self.new ino (slice_index self.old.uses ino) shape }
        ensures uses { self.new.uses ≡ self.old.uses }
    {
        let k = self.log.geometry().k;
        let was = drafted_footing(&self.overlay, ino);
        let before = match self.overlay.draft(ino) {
            Some(draft) => draft.shape,
            None => unreachable!(),
        };
        self.overlay.set_shape(ino, shape);
        self.overlay.tell_whole();
        self.counts.change_shape(k, ino, &was, before, shape);
    }
}
