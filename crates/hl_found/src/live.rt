//! The live blocks of an image: those in the log that its tables and nodes stand on.

ghost use Rattle.std.specs.Prelude.{◌≡◌, ◌+◌, ◌*◌, ◌<◌, ◌≤◌, ◌^◌, ◌↔◌, ℕ, length, IsTrue, IfOk, OnOk, MatchOption};
ghost use Rattle.hl_media.specs.History.{Image};
ghost use Rattle.hl_addr.specs.Layout.{Layout};
ghost use Rattle.hl_super.specs.declared.record.Record.{Record};
ghost use Rattle.hl_tables.specs.Values.{TableValues};
ghost use Rattle.hl_bytes.specs.Buffers.{block_of};
ghost use Rattle.hl_image.specs.Places.{log_end};
ghost use Rattle.hl_inode.specs.declared.inode.Inode.{Inode};
ghost use Rattle.hl_nodes.specs.Contents.{HasContents};
ghost use Rattle.hl_nodes.specs.Live.{IsLiveAt};
ghost use Rattle.hl_nodes.specs.Nodes.{IsInodeAt};
ghost use Rattle.hl_nodes.specs.Pointers.{HasPointerBlock, ReachesBlock};
ghost use Rattle.hl_placed.specs.Blocks.{blocks_of};
ghost use Rattle.hl_found.specs.Found.{contents_found};
ghost use Rattle.hl_found.specs.Listing.{HavePointers, IsContent, IsOfInode, IsOfNumber};
ghost use Rattle.hl_found.specs.Listing.{IsTableBefore, IsPushed, LieApart, Lists};

use crate::contents::FoundContents;
use hl_addr::Geometry;
use hl_bytes::BlockRecord;
use hl_inode::{Inode, decode};
use hl_nodes::{block_at, is_in_log, pointer_of};
use hl_summary::{INODE, POINTERS, TABLE};
use hl_tables::Tables;
use std::alloc::{AllocError, Global};

/// A live block, by the record that a part has of it, and where it lies.
#[derive(Clone, Copy, Debug, PartialEq, Eq)]
pub struct LiveAt {
    pub block: BlockRecord,
    pub address: u32,
}

/// The inode of a number at an address of the log, if there is one.
fn inode_at(image: &[u8], geometry: &Geometry, ino: u32, address: u32) -> Option<Inode>
    requires { 4096 * log_end geometry.now ≤ length image.now }
    ensures { let Is = IsInodeAt geometry.now (block_of image.now) ino address in
        MatchOption result ((v : Inode) → ¬ Is v) Is }
{
    if !is_in_log(geometry, address) {
        return None;
    }
    match decode(block_at(image, address)) {
        Some(inode) if inode.number == ino => Some(inode),
        _ => None,
    }
}

/// Lists a block where its address is one of the log.
fn push_in_log(
    lives: &mut Vec<LiveAt>,
    geometry: &Geometry,
    block: BlockRecord,
    address: u32,
) -> Result<(), AllocError>
    ensures { OnOk result (IsPushed geometry.now block address lives.old.items lives.new.items) }
{
    if is_in_log(geometry, address) {
        lives.push(LiveAt { block, address })?;
    }
    Ok(())
}

/// The blocks of an inode's contents that lie in the log.
#[tactic(auto, unfolding(hl_placed::specs::Blocks::blocks_of))]
fn contents_in_log(
    alloc: Global,
    image: &[u8],
    geometry: &Geometry,
    ino: u32,
    inode: &Inode,
) -> Result<Vec<LiveAt>, AllocError>
    requires image { 4096 * log_end geometry.now ≤ length image.now }
    requires size { inode.now.size ≤ 4243456 }
    requires there { ReachesBlock image.now inode.now.single }
    ensures { let Is = IsContent geometry.now (block_of image.now) ino inode.now in
        IfOk result (λ r. Lists (Is (blocks_of inode.now.size)) r.items) }
{
    let mut lives = Vec::new(alloc);
    'contents: for i in 0..inode.size.div_ceil(4096) as u32 {
        let address = pointer_of(image, inode, i);
        push_in_log(&mut lives, geometry, BlockRecord { ino, index: i }, address)?;
    }
    Ok(lives)
}

/// The blocks of the node of an inode that lie in the log.
fn blocks_of_inode(
    alloc: Global,
    image: &[u8],
    geometry: &Geometry,
    ino: u32,
    address: u32,
    inode: &Inode,
) -> Result<Vec<LiveAt>, AllocError>
    requires image { 4096 * log_end geometry.now ≤ length image.now }
    requires there { IsInodeAt geometry.now (block_of image.now) ino address inode.now }
    requires pointers { HasPointerBlock geometry.now (block_of image.now) inode.now }
    ensures { let Is = IsOfInode geometry.now (block_of image.now) ino address inode.now in
        IfOk result (λ r. Lists Is r.items) }
{
    let mut lives = contents_in_log(alloc, image, geometry, ino, inode)?;
    let pointers = BlockRecord {
        ino,
        index: POINTERS,
    };
    push_in_log(&mut lives, geometry, pointers, inode.single)?;
    push_in_log(
        &mut lives,
        geometry,
        BlockRecord { ino, index: INODE },
        address,
    )?;
    Ok(lives)
}

/// The blocks of the node of a number that lie in the log.
fn blocks_of_number(
    alloc: Global,
    image: &[u8],
    geometry: &Geometry,
    tables: &Tables,
    ino: u32,
) -> Result<Vec<LiveAt>, AllocError>
    requires image { 4096 * log_end geometry.now ≤ length image.now }
    requires low { 1 ≤ ino }
    requires high { ino < geometry.now.inodes }
    requires inodes { length tables.now.inodes ≡ geometry.now.inodes }
    requires pointers { HavePointers geometry.now (block_of image.now) tables.now }
    ensures { let Is = IsOfNumber geometry.now (block_of image.now) tables.now ino in
        IfOk result (λ r. Lists Is r.items) }
{
    let address = tables.inode(ino);
    match inode_at(image, geometry, ino, address) {
        Some(inode) => blocks_of_inode(alloc, image, geometry, ino, address, &inode),
        None => Ok(Vec::new(alloc)),
    }
}

/// The table blocks.
fn table_blocks(alloc: Global, tables: &[u32]) -> Result<Vec<LiveAt>, AllocError>
    requires { length tables.now < 2 ^ 32 }
    ensures { IfOk result (λ r. Lists (IsTableBefore tables.now (length tables.now)) r.items) }
{
    let mut lives = Vec::new(alloc);
    'tables: for i in 0..tables.len() {
        let block = BlockRecord {
            ino: i as u32,
            index: TABLE,
        };
        lives.push(LiveAt {
            block,
            address: tables[i],
        })?;
    }
    Ok(lives)
}

/// The live blocks of an image with these contents, each by the record that a part has of it, with
/// its address. It reads each inode.
pub fn live_blocks(
    alloc: Global,
    image: &[u8],
    geometry: &Geometry,
    found: &FoundContents,
) -> Result<Vec<LiveAt>, AllocError>
    requires image { 4096 * log_end geometry.now ≤ length image.now }
    requires has { HasContents geometry.now (block_of image.now) (contents_found found.now) }
    ensures { let Is = IsLiveAt geometry.now (block_of image.now) found.now.rec found.now.tables in
        IfOk result (λ r. Lists Is r.items) }
{
    let mut lives = table_blocks(alloc, found.rec.tables.items())?;
    'numbers: for ino in 1..geometry.inodes {
        let more = blocks_of_number(alloc, image, geometry, &found.tables, ino)?;
        lives.extend_from_slice(more.as_slice())?;
    }
    Ok(lives)
}

/// Whether two blocks of which one is listed for the other's address are one.
fn is_apart(one: &LiveAt, other: &LiveAt) -> bool
    ensures { IsTrue result
        ↔ (one.now.address ≡ other.now.address → one.now.block ≡ other.now.block) }
{
    one.address != other.address || one.block == other.block
}

/// Whether no two of the live blocks lie at one address. It compares each pair.
pub fn lie_apart(lives: &[LiveAt]) -> bool
    ensures { (g : Layout) (image : Image) (rec : Record) (t : TableValues)
        → Lists (IsLiveAt g image rec t) lives.now → IsTrue result ↔ LieApart g image rec t }
{
    'ones: for i in 0..lives.len() {
        'others: for j in 0..i {
            if !is_apart(&lives[i], &lives[j]) {
                return false;
            }
        }
    }
    true
}
