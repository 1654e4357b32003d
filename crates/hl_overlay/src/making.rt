//! The unit that makes the drafts those of every image.

ghost use Rattle.std.specs.Prelude.{◌≡◌, ◌+◌, ◌<◌, ◌≤◌, All, OnErr, OnOk, length};
ghost use Rattle.std.specs.Vec.{vec_capacity};
ghost use Rattle.hl_inode.specs.Inodes.{HasRanges, Spells};
ghost use Rattle.hl_overlay.specs.Drafting.{IsDraft, count_for};
ghost use Rattle.hl_overlay.specs.DraftTables.{freed_of, others_in, others_of};
ghost use Rattle.hl_overlay.specs.Making.{AddsAll, AddsOne, AddsPointerBlock, AreOnPlan, IsFreeing, IsInodeOf, IsOnPlan, IsPointerBlockOf, followed_by, resolved, used_of};

use crate::draft::{NodeDraft, Shape};
use crate::drafts::Drafts;
use crate::overlay::Overlay;
use crate::pointers::{BLOCKS_MAX, DIRECT, Pointer};
use hl_addr::NOTHING;
use hl_bytes::{BLOCK, Block, BlockRecord, TableRecord};
use hl_inode::{Inode, Kind, encode, set_pointer};
use hl_log::Unit;
use hl_summary::{INODE, POINTERS};
use hl_tree::List;
use std::alloc::{AllocError, Global};
use std::marker::Model;
use std::mem;

/// The kind of the table record that frees an inode number.
const FREED: u32 = 1;

/// A unit under way, with the drafts that it was made of.
#[derive(Drop)]
pub struct MadeUnit {
    drafts: Drafts,
    unit: Unit,
    /// How many of the unit's blocks are new blocks of nodes. They come first.
    first: usize,
}

/// The address that a pointer stands for, where the new blocks get these addresses.
fn resolved(plan: &[u32], pointer: Pointer) -> u32
    requires { IsOnPlan plan.now pointer }
    ensures { result ≡ resolved plan.now pointer }
{
    match pointer {
        Pointer::Hole => NOTHING,
        Pointer::Kept(addr) | Pointer::Moved { addr, .. } => addr,
        Pointer::New(n) => plan[n as usize],
    }
}

/// The pointer block of a draft.
fn pointer_block(draft: &NodeDraft, plan: &[u32]) -> Block
    requires { AreOnPlan plan.now draft.now }
    ensures { IsPointerBlockOf plan.now draft.now result.bytes }
{
    let mut block = Block { bytes: [0; BLOCK] };
    'far: for i in DIRECT..BLOCKS_MAX {
        let addr = resolved(plan, draft.pointers.get(i));
        set_pointer(&mut block.bytes, i - DIRECT, addr);
    }
    block
}

/// The inode of a draft of this kind and size, whose pointer block lies at an address.
fn inode_of(draft: &NodeDraft, shape: Shape, used: u64, single: u32, plan: &[u32]) -> Inode
    requires { AreOnPlan plan.now draft.now }
    ensures { IsInodeOf plan.now single used draft.now shape result }
{
    let mut direct = [NOTHING; 12];
    'direct: for i in 0..DIRECT {
        direct[i as usize] = resolved(plan, draft.pointers.get(i));
    }
    Inode {
        number: draft.ino,
        kind: shape.kind,
        size: shape.size,
        used: used_of(shape.kind, used),
        direct,
        single,
    }
}

/// The last use that an inode has: a directory has none.
pub fn used_of(kind: Kind, used: u64) -> u64
    ensures { result ≡ used_of kind used }
{
    match kind {
        Kind::File => used,
        Kind::Dir => 0,
    }
}

/// A block that spells the inode.
fn inode_block(inode: &Inode) -> Block
    requires { HasRanges inode.now }
    ensures { Spells result.bytes inode.now }
{
    let mut block = Block { bytes: [0; BLOCK] };
    encode(inode, &mut block.bytes);
    block
}

/// Adds a block, for which there is room.
fn add(blocks: &mut Vec<(BlockRecord, Block)>, ino: u32, index: u32, block: Block)
    requires { length blocks.old.items < vec_capacity blocks.old }
    ensures items { blocks.new.items ≡ followed_by blocks.old.items ino index block }
    ensures capacity { vec_capacity blocks.old ≤ vec_capacity blocks.new }
{
    let Ok(()) = blocks.push((BlockRecord { ino, index }, block)) else {
        unreachable!()
    };
}

/// Adds the pointer block of a draft, where the unit is to have one, and answers where the draft's pointer block lies.
fn add_pointer_block(draft: &NodeDraft, plan: &[u32], blocks: &mut Vec<(BlockRecord, Block)>) -> u32
    requires placed { AreOnPlan plan.now draft.now }
    requires plan { length blocks.old.items < length plan.now }
    requires room { length blocks.old.items < vec_capacity blocks.old }
    ensures adds { AddsPointerBlock plan.now draft.now blocks.old.items blocks.new.items result }
    ensures count { length draft.now.pointers ≡ 1036 }
    ensures capacity { vec_capacity blocks.old ≤ vec_capacity blocks.new }
{
    if !draft.has_far() {
        return NOTHING;
    }
    if draft.single != NOTHING {
        return draft.single;
    }
    let single = plan[blocks.as_slice().len()];
    add(blocks, draft.ino, POINTERS, pointer_block(draft, plan));
    single
}

/// Adds the blocks that a draft needs: its pointer block, and its inode.
fn add_draft(draft: &NodeDraft, plan: &[u32], used: u64, blocks: &mut Vec<(BlockRecord, Block)>)
    requires draft { IsDraft draft.now }
    requires placed { AreOnPlan plan.now draft.now }
    requires plan { length blocks.old.items + count_for draft.now ≤ length plan.now }
    requires room { length blocks.old.items + count_for draft.now ≤ vec_capacity blocks.old }
    ensures adds { AddsOne plan.now used draft.now blocks.old.items blocks.new.items }
    ensures capacity { vec_capacity blocks.old ≤ vec_capacity blocks.new }
{
    if !draft.changed {
        return;
    }
    if let Some(shape) = draft.shape {
        let single = add_pointer_block(draft, plan, blocks);
        let inode = inode_of(draft, shape, used, single, plan);
        add(blocks, draft.ino, INODE, inode_block(&inode));
    }
}

/// Adds the blocks that drafts need, one draft after the other.
fn add_drafts(
    drafts: &[NodeDraft],
    plan: &[u32],
    used: &[u64],
    blocks: &mut Vec<(BlockRecord, Block)>,
)
    requires drafts { All IsDraft drafts.now }
    requires placed { All (AreOnPlan plan.now) drafts.now }
    requires uses { All (λ d. d.ino < length used.now) drafts.now }
    requires plan { length blocks.old.items + others_in drafts.now ≤ length plan.now }
    requires room { length blocks.old.items + others_in drafts.now ≤ vec_capacity blocks.old }
    ensures { AddsAll plan.now used.now drafts.now blocks.old.items blocks.new.items }
{
    'drafts: for draft in drafts {
        add_draft(draft, plan, used[draft.ino as usize], blocks);
    }
}

impl Overlay {
    ghost use Rattle.hl_overlay.specs.MadeUnits.{IsMadeOf};
    ghost use Rattle.hl_overlay.specs.Overlays.{unit_blocks};

    /// The numbers that the unit is to free, appended as table records. It fails only where there was no room for them.
    pub fn push_freed(&self, changes: &mut Vec<TableRecord>) -> Result<(), AllocError>
        ensures freed { OnOk result (IsFreeing self.now.drafts changes.old.items changes.new.items) }
        ensures full { let freed = length (freed_of self.now.drafts.items) in
            OnErr result (vec_capacity changes.old < length changes.old.items + freed) }
        ensures capacity { vec_capacity changes.old ≤ vec_capacity changes.new }
    {
        'freed: for draft in self.drafts() {
            if draft.is_freed() {
                changes.push(TableRecord {
                    kind: FREED,
                    a: draft.ino,
                    b: 0,
                    serial: 0,
                })?;
            }
        }
        Ok(())
    }

    /// The unit of the drafts, whose blocks get the addresses of the plan. There is room for the blocks that it needs.
    /// It leaves an overlay without numbers, which is to be put back.
    pub fn make(
        &mut self,
        alloc: Global,
        plan: &[u32],
        used: &[u64],
        changes: Vec<TableRecord>,
    ) -> MadeUnit
        requires plan { length plan.now ≡ unit_blocks self.old }
        requires room { others_of self.old.drafts ≤ self.old.room }
        requires uses { length self.old.drafts.places ≤ length used.now }
        ensures { IsMadeOf plan.now used.now self.old changes.items result }
    {
        let hollow = Overlay::hollow(alloc);
        let Overlay {
            drafts,
            mut blocks,
            room: _,
        } = mem::replace(self, hollow);
        let first = blocks.len();
        add_drafts(drafts.items(), plan, used, &mut blocks);
        let unit = Unit {
            blocks: List::of(blocks),
            tables: List::of(changes),
        };
        MadeUnit {
            drafts,
            unit,
            first,
        }
    }

    /// An overlay without numbers. It takes no memory.
    fn hollow(alloc: Global) -> Overlay {
        Overlay {
            drafts: Drafts::hollow(alloc),
            blocks: Vec::new(alloc),
            room: 0,
        }
    }
}

impl Model for MadeUnit {
    ghost use Rattle.hl_overlay.specs.MadeUnits.{MadeUnitValue, IsMadeUnit, made_value};

    ghost Value = { MadeUnitValue };

    ghost view = { λ m. made_value m.drafts m.first m.unit.blocks m.unit.tables };

    ghost invariant = { λ m. IsMadeUnit (made_value m.drafts m.first m.unit.blocks m.unit.tables) };
}

impl MadeUnit {
    ghost use Rattle.hl_overlay.specs.MadeUnits.{undone};
    ghost use Rattle.hl_overlay.specs.Overlays.{IsEmpty};
    ghost use Rattle.hl_overlay.specs.DraftTables.{HasNone};

    /// The unit.
    pub fn unit(&self) -> &Unit
        ensures blocks { result.now.blocks ≡ self.now.blocks }
        ensures tables { result.now.tables ≡ self.now.tables }
    {
        &self.unit
    }

    /// The drafts that it was made of.
    pub fn drafts(&self) -> &[NodeDraft]
        ensures { result.now ≡ self.now.drafts.items }
    {
        self.drafts.items()
    }

    /// The overlay behind the unit: no number is drafted.
    pub fn settled(self) -> Overlay
        ensures empty { IsEmpty (length self.drafts.places) result }
        ensures none { HasNone result.drafts }
    {
        let MadeUnit {
            mut drafts,
            unit,
            first: _,
        } = self;
        let Unit { blocks, tables: _ } = unit;
        let mut blocks = blocks.into_vec();
        blocks.clear();
        drafts.clear();
        Overlay {
            drafts,
            blocks,
            room: 0,
        }
    }

    /// The overlay as it was, without room for more blocks.
    pub fn undone(self) -> Overlay
        ensures { result ≡ undone self }
    {
        let MadeUnit {
            drafts,
            unit,
            first,
        } = self;
        let Unit { blocks, tables: _ } = unit;
        let mut blocks = blocks.into_vec();
        blocks.truncate(first);
        Overlay {
            drafts,
            blocks,
            room: 0,
        }
    }
}
