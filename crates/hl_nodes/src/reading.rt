//! A node of an image, read from its bytes plainly and slowly.

ghost use Rattle.std.specs.Prelude.{◌≡◌, ◌≢◌, ◌↔◌, ℕ, ◌+◌, ◌*◌, ◌<◌, ◌≤◌, length, IsTrue, IfOk};
ghost use Rattle.hl_bytes.specs.Buffers.{block_of};
ghost use Rattle.hl_image.specs.Places.{log_end, InLog};
ghost use Rattle.hl_addr.specs.Slots.{HasSlot, slot_number};
ghost use Rattle.hl_tseg.specs.SlotTable.{slot_at};
ghost use Rattle.hl_nodes.specs.Pointers.{HasPointerBlock, ReachesBlock};
ghost use Rattle.hl_nodes.specs.Pointers.{pointer_in, pointer_of};
ghost use Rattle.hl_nodes.specs.Found.{NamesBlocks, FindsAway, FindsBlock, FindsBlocks};
ghost use Rattle.hl_nodes.specs.Found.{FindsNode, FindsNodeOf};

use crate::found::{FoundBlock, FoundNode};
use hl_addr::{Geometry, NOTHING, Place};
use hl_bytes::BLOCK;
use hl_inode::{Inode, Kind, decode, pointer};
use hl_tseg::{Slot, TsegTable};
use std::alloc::{AllocError, Global};

/// The bytes of a block of the image.
#[tactic(auto, unfolding(hl_bytes::specs::Buffers::block_of))]
pub fn block_at<'a>(image: &'a [u8], address: u32) -> &'a [u8]
    requires { 4096 * (address + 1) ≤ length image.now }
    ensures bytes { result.now ≡ block_of image.now address }
    ensures size { length result.now ≡ 4096 }
{
    let from = BLOCK * address as usize;
    &image[from..from + BLOCK]
}

/// Whether the address is one of the log.
pub fn is_in_log(geometry: &Geometry, address: u32) -> bool
    ensures place { IsTrue result ↔ InLog geometry.now address }
    ensures within { IsTrue result → address < log_end geometry.now }
{
    match geometry.class(address) {
        Place::Log { .. } => true,
        _ => false,
    }
}

/// Pointer `i` of the pointer block at an address, if there is one.
#[tactic(auto, unfolding(crate::specs::Pointers::pointer_in))]
fn pointer_in(image: &[u8], address: u32, i: u32) -> u32
    requires within { i < 1024 }
    requires there { address ≢ 4294967295 → 4096 * (address + 1) ≤ length image.now }
    ensures { result ≡ pointer_in (block_of image.now) address i }
{
    if address == NOTHING {
        NOTHING
    } else {
        pointer(block_at(image, address), i)
    }
}

/// The pointer of an inode to its block `i`, of the blocks 0 to 1,035. The image reaches to the
/// inode's pointer block, if it has one.
#[tactic(auto, unfolding(crate::specs::Pointers::pointer_of))]
pub fn pointer_of(image: &[u8], inode: &Inode, i: u32) -> u32
    requires within { i < 1036 }
    requires there { ReachesBlock image.now inode.now.single }
    ensures { result ≡ pointer_of (block_of image.now) inode.now i }
{
    if i < 12 {
        inode.direct[i as usize]
    } else {
        pointer_in(image, inode.single, i - 12)
    }
}

/// Whether the pointer block at an address names a block, and none past the size.
#[tactic(auto, unfolding(hl_placed::specs::Blocks::blocks_of))]
fn names_blocks(image: &[u8], size: u64, address: u32) -> bool
    requires { 4096 * (address + 1) ≤ length image.now }
    ensures { IsTrue result ↔ NamesBlocks (block_of image.now) size address 12 }
{
    let blocks = size.div_ceil(4096);
    let mut named = false;
    'pointers: for i in 0..1024u32 {
        if pointer_in(image, address, i) != NOTHING {
            if blocks <= 12 + i as u64 {
                return false;
            }
            named = true;
        }
    }
    named
}

/// What a slot holds.
fn held_slot(geometry: &Geometry, slots: &TsegTable, volume: u32, slot: u32) -> Slot
    requires exists { HasSlot geometry.now.volumes volume slot }
    requires slots { slots.now.volumes ≡ geometry.now.volumes }
    ensures { result ≡ slot_at slots.now (slot_number geometry.now.volumes volume slot) }
{
    slots.items()[geometry.tseg_of(volume, slot) as usize]
}

/// The block that a pointer stands for, if it stands for one.
fn block_of_pointer(
    alloc: Global,
    image: &[u8],
    geometry: &Geometry,
    slots: &TsegTable,
    kind: Kind,
    address: u32,
) -> Result<Option<FoundBlock>, AllocError>
    requires image { 4096 * log_end geometry.now ≤ length image.now }
    requires slots { slots.now.volumes ≡ geometry.now.volumes }
    ensures { IfOk result (FindsBlock geometry.now slots.now (block_of image.now) kind address) }
{
    match geometry.class(address) {
        Place::Nothing => Ok(Some(FoundBlock::Hole)),
        Place::Log { .. } => {
            let bytes = block_at(image, address).to_vec(alloc)?;
            Ok(Some(FoundBlock::Here(bytes)))
        }
        Place::Tertiary {
            volume,
            slot,
            block,
        } => {
            let held = held_slot(geometry, slots, volume, slot);
            Ok(away_block(held, kind, block, geometry.data_max()))
        }
        _ => Ok(None),
    }
}

/// The away block of a file in a slot, where the slot holds a segment that has it.
fn away_block(slot: Slot, kind: Kind, position: u32, most: u32) -> Option<FoundBlock>
    ensures { FindsAway slot kind position most result }
{
    if kind == Kind::Dir || position == 0 || most < position {
        return None;
    }
    match slot {
        Slot::Staged { serial, .. } => Some(FoundBlock::Away { serial, position }),
        Slot::Home { serial } => Some(FoundBlock::Away { serial, position }),
        _ => None,
    }
}

/// Whether the inode has a pointer block that may be one, or none.
fn has_pointer_block(image: &[u8], geometry: &Geometry, inode: &Inode) -> bool
    requires { 4096 * log_end geometry.now ≤ length image.now }
    ensures { IsTrue result ↔ HasPointerBlock geometry.now (block_of image.now) inode.now }
{
    if inode.single == NOTHING {
        return true;
    }
    if is_in_log(geometry, inode.single) {
        names_blocks(image, inode.size, inode.single)
    } else {
        false
    }
}

/// The blocks of the node of an inode, if each of its pointers stands for one.
#[tactic(auto, unfolding(hl_placed::specs::Blocks::blocks_of))]
fn blocks_of_inode(
    alloc: Global,
    image: &[u8],
    geometry: &Geometry,
    slots: &TsegTable,
    inode: &Inode,
) -> Result<Option<Vec<FoundBlock>>, AllocError>
    requires image { 4096 * log_end geometry.now ≤ length image.now }
    requires slots { slots.now.volumes ≡ geometry.now.volumes }
    requires size { inode.now.size ≤ 4243456 }
    requires there { ReachesBlock image.now inode.now.single }
    ensures { IfOk result (FindsBlocks geometry.now slots.now (block_of image.now) inode.now) }
{
    let mut blocks = Vec::new(alloc);
    'pointers: for i in 0..inode.size.div_ceil(4096) as u32 {
        let address = pointer_of(image, inode, i);
        match block_of_pointer(alloc, image, geometry, slots, inode.kind, address)? {
            Some(block) => blocks.push(block)?,
            None => return Ok(None),
        }
    }
    Ok(Some(blocks))
}

/// The node of a number whose inode stands at an address of the image, if there is one. The image
/// has at least the log's segments, and the slots are the site's. It copies each block that is in
/// the log.
pub fn node_at(
    alloc: Global,
    image: &[u8],
    geometry: &Geometry,
    slots: &TsegTable,
    ino: u32,
    address: u32,
) -> Result<Option<FoundNode>, AllocError>
    requires image { 4096 * log_end geometry.now ≤ length image.now }
    requires slots { slots.now.volumes ≡ geometry.now.volumes }
    ensures { IfOk result (FindsNode geometry.now slots.now (block_of image.now) ino address) }
{
    if !is_in_log(geometry, address) {
        return Ok(None);
    }
    match decode(block_at(image, address)) {
        Some(inode) => node_of(alloc, image, geometry, slots, ino, &inode),
        None => Ok(None),
    }
}

/// The node of an inode, where it has the number.
fn node_of(
    alloc: Global,
    image: &[u8],
    geometry: &Geometry,
    slots: &TsegTable,
    ino: u32,
    inode: &Inode,
) -> Result<Option<FoundNode>, AllocError>
    requires image { 4096 * log_end geometry.now ≤ length image.now }
    requires slots { slots.now.volumes ≡ geometry.now.volumes }
    requires size { inode.now.size ≤ 4243456 }
    ensures { IfOk result (FindsNodeOf geometry.now slots.now (block_of image.now) ino inode.now) }
{
    if inode.number != ino || !has_pointer_block(image, geometry, inode) {
        return Ok(None);
    }
    match blocks_of_inode(alloc, image, geometry, slots, inode)? {
        Some(blocks) => Ok(Some(FoundNode {
            kind: inode.kind,
            size: inode.size,
            used: inode.used,
            blocks,
        })),
        None => Ok(None),
    }
}
