//! The pointers of an inode, its own and those in its pointer block.

ghost use Rattle.std.specs.Prelude.{◌≡◌, ◌↔◌, ◌<◌, ◌≤◌, false, length, IfErr, IfOk, IsTrue, MatchOption, MatchResult, OnOk};
ghost use Rattle.hl_media.specs.History.{Image};
ghost use Rattle.hl_media.specs.Moments.{Now};
ghost use Rattle.hl_tables.specs.Values.{TableValues};
ghost use Rattle.hl_addr.specs.Slots.{HasSlot, slot_number};
ghost use Rattle.hl_tseg.specs.SlotTable.{slot_at};
ghost use Rattle.hl_log.specs.Logs.{OnlyReads, site_blocks};
ghost use Rattle.hl_nodes.specs.Pointers.{pointer_of};
ghost use Rattle.hl_nodes.specs.Breaks.{HasOffPointer};
ghost use Rattle.hl_survey.specs.Surveys.{ArePointers, IsPointer};
ghost use Rattle.hl_survey.specs.Pointing.{HasBlock, HasPointers, HoldsBlock, IsOffBlock, NamesOwnBlocks, SpellsPointers, number_at};
ghost use Rattle.hl_survey.specs.Stops.{BreaksPointers, Stops, StopsBy};

use crate::check_error::CheckError;
use crate::reading::read_block;
use hl_addr::{Geometry, NOTHING, Place};
use hl_bytes::BLOCK;
use hl_inode::{Inode, Kind, pointer};
use hl_media::Machine;
use hl_nodes::{Rule, is_in_log};
use hl_tables::Tables;
use hl_tseg::{Slot, TsegTable};
use std::alloc::{AllocError, Global};

/// The pointers of an inode itself.
const DIRECT: u32 = 12;

/// Whether a slot holds a segment that has a block of a node of this kind at this position, of the most that a segment may
/// have.
fn holds_block(slot: Slot, kind: Kind, position: u32, most: u32) -> bool
    ensures { IsTrue result ↔ HoldsBlock slot kind position most }
{
    if kind == Kind::Dir || position == 0 || most < position {
        return false;
    }
    match slot {
        Slot::Staged { .. } => true,
        Slot::Home { .. } => true,
        _ => false,
    }
}

/// What a slot holds.
fn held_slot(geometry: &Geometry, slots: &TsegTable, volume: u32, slot: u32) -> Slot
    requires exists { HasSlot geometry.now.volumes volume slot }
    requires slots { slots.now.volumes ≡ geometry.now.volumes }
    ensures { result ≡ slot_at slots.now (slot_number geometry.now.volumes volume slot) }
{
    slots.items()[geometry.tseg_of(volume, slot) as usize]
}

/// Whether a node of this kind may have the pointer.
fn is_pointer(geometry: &Geometry, slots: &TsegTable, kind: Kind, address: u32) -> bool
    requires { slots.now.volumes ≡ geometry.now.volumes }
    ensures { IsTrue result ↔ IsPointer geometry.now slots.now kind address }
{
    match geometry.class(address) {
        Place::Nothing => true,
        Place::Log { .. } => true,
        Place::Tertiary {
            volume,
            slot,
            block,
        } => {
            let held = held_slot(geometry, slots, volume, slot);
            holds_block(held, kind, block, geometry.data_max())
        }
        _ => false,
    }
}

/// The pointer of an inode to its block `i`, of the blocks 0 to 1,035, by the inode's pointer block, if it has one.
#[tactic(auto, unfolding(hl_nodes::specs::Pointers::pointer_of, hl_nodes::specs::Pointers::pointer_in))]
fn pointer_at(inode: &Inode, block: &[u8], i: u32) -> u32
    requires within { i < 1036 }
    requires size { length block.now ≡ 4096 }
    ensures { (image : Image) → HasBlock image inode.now block.now
        → result ≡ pointer_of image inode.now i }
{
    if i < DIRECT {
        inode.direct[i as usize]
    } else if inode.single == NOTHING {
        NOTHING
    } else {
        entry_at(block, i - DIRECT)
    }
}

/// Pointer `i` of a pointer block.
fn entry_at(block: &[u8], i: u32) -> u32
    requires size { length block.now ≡ 4096 }
    requires within { i < 1024 }
    ensures { result ≡ number_at block.now i }
{
    pointer(block, i)
}

/// Whether a pointer block names a block, and none past the size.
#[tactic(auto, unfolding(hl_placed::specs::Blocks::blocks_of))]
fn names_own_blocks(size: u64, block: &[u8]) -> bool
    requires { length block.now ≡ 4096 }
    ensures so { IsTrue result → NamesOwnBlocks size block.now }
    ensures not { result ≡ false → IsOffBlock size block.now }
{
    let blocks = size.div_ceil(4096);
    let mut named = false;
    'pointers: for i in 0..1024u32 {
        if entry_at(block, i) != NOTHING {
            if blocks <= DIRECT as u64 + i as u64 {
                return false;
            }
            named = true;
        }
    }
    named
}

/// The pointers to the blocks that the size takes, or none where some pointer is one that the inode may not have.
#[tactic(auto, unfolding(hl_placed::specs::Blocks::blocks_of))]
fn pointers_of(
    alloc: Global,
    geometry: &Geometry,
    tables: &Tables,
    inode: &Inode,
    block: &[u8],
) -> Result<Option<Vec<u32>>, AllocError>
    requires slots { tables.now.slots.volumes ≡ geometry.now.volumes }
    requires size { inode.now.size ≤ 4243456 }
    requires block { length block.now ≡ 4096 }
    ensures { IfOk result (λ found. (image : Image) → HasBlock image inode.now block.now
        → MatchOption found
        (HasOffPointer geometry.now image tables.now inode.now)
        (λ r. ArePointers geometry.now tables.now.slots image inode.now r.items)) }
{
    let mut pointers = Vec::new(alloc);
    'pointers: for i in 0..inode.size.div_ceil(4096) as u32 {
        let address = pointer_at(inode, block, i);
        if !is_pointer(geometry, tables.slots(), inode.kind, address) {
            return Ok(None);
        }
        pointers.push(address)?;
    }
    Ok(Some(pointers))
}

/// Reads the pointer block of an inode, if it has one.
fn read_pointer_block<M: Machine>(
    machine: &mut M,
    geometry: &Geometry,
    own: u32,
    inode: &Inode,
    out: &mut [u8],
) -> Result<(), CheckError>
    requires size { length out.old ≡ 4096 }
    requires room { site_blocks geometry.now ≤ M.blocks machine.old }
    ensures block { OnOk result (Now (M.history machine.old)
        (λ s. SpellsPointers geometry.now s.content inode.now out.new)) }
    ensures size { length out.new ≡ 4096 }
    ensures stops { IfErr result (Stops (M.history machine.old) (λ image rule block.
        (t : TableValues) → BreaksPointers geometry.now t own inode.now image rule block)) }
    ensures machine { OnlyReads M.history M.blocks M.faults M.write_faults M.say_faults
        machine.old machine.new }
    ensures fault { MatchResult result (λ _. M.faults machine.new ≡ M.faults machine.old)
        (StopsBy (M.faults machine.old) (M.faults machine.new)) }
{
    if inode.single == NOTHING {
        return Ok(());
    }
    if !is_in_log(geometry, inode.single) {
        return Err(CheckError::Damaged {
            block: own,
            rule: Rule::PointerPlace,
        });
    }
    read_block(machine, inode.single, out)?;
    if names_own_blocks(inode.size, out) {
        Ok(())
    } else {
        Err(CheckError::Damaged {
            block: inode.single,
            rule: Rule::PointerBlock,
        })
    }
}

/// Reads the pointers of an inode that stands at an address.
pub(crate) fn read_pointers<M: Machine>(
    alloc: Global,
    machine: &mut M,
    geometry: &Geometry,
    tables: &Tables,
    own: u32,
    inode: &Inode,
) -> Result<Vec<u32>, CheckError>
    requires room { site_blocks geometry.now ≤ M.blocks machine.old }
    requires slots { tables.now.slots.volumes ≡ geometry.now.volumes }
    requires size { inode.now.size ≤ 4243456 }
    ensures pointers { IfOk result (λ r. Now (M.history machine.old)
        (λ s. HasPointers geometry.now tables.now.slots s.content inode.now r.items)) }
    ensures stops { IfErr result (Stops (M.history machine.old)
        (BreaksPointers geometry.now tables.now own inode.now)) }
    ensures machine { OnlyReads M.history M.blocks M.faults M.write_faults M.say_faults
        machine.old machine.new }
    ensures fault { MatchResult result (λ _. M.faults machine.new ≡ M.faults machine.old)
        (StopsBy (M.faults machine.old) (M.faults machine.new)) }
{
    let mut block = [0; BLOCK];
    read_pointer_block(machine, geometry, own, inode, &mut block)?;
    match pointers_of(alloc, geometry, tables, inode, &block)? {
        Some(pointers) => Ok(pointers),
        None => Err(CheckError::Damaged {
            block: own,
            rule: Rule::PointerPlace,
        }),
    }
}
