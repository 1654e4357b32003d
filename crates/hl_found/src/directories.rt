//! Directories and files of an image, by their numbers.

ghost use Rattle.std.specs.Prelude.{◌≡◌, ◌<◌, ◌≤◌, ◌^◌, ◌↔◌, ℕ, length, true, IsTrue, IfOk, None, option_map};
ghost use Rattle.std.specs.List.{slice_index_or};
ghost use Rattle.hl_placed.specs.Blocks.{file_block, no_shelf, IsPlacedFile};
ghost use Rattle.hl_nodes.specs.Found.{block_found, node_found, nodes_found};
ghost use Rattle.hl_found.specs.Charges.{HaveFewBlocks};
ghost use Rattle.hl_found.specs.Directories.{FindsEntries, FindsUse, FindsUseAt, FindsUses};
ghost use Rattle.hl_found.specs.Directories.{IsResident, IsWhole};

use crate::shelves::{ends_in_zeros, plain_bytes};
use hl_bytes::BLOCK;
use hl_dir::{Entry, decode};
use hl_inode::Kind;
use hl_nodes::{FoundBlock, FoundNode};
use hl_tree::List;
use std::alloc::{AllocError, Global};

/// What a number is used for.
#[derive(Drop)]
pub enum FoundUse {
    File,
    /// A directory with these entries.
    Directory(List<Entry>),
}

/// Whether a block lies in the log, whole.
fn is_whole(block: &FoundBlock) -> bool
    ensures { IsTrue result ↔ IsWhole (block_found block.now) }
{
    match block {
        FoundBlock::Here(bytes) => bytes.len() == BLOCK,
        _ => false,
    }
}

/// Whether a node has a block for each 4,096 bytes begun, and each lies in the log, whole.
#[tactic(auto, unfolding(hl_placed::specs::Blocks::blocks_of))]
fn is_resident(node: &FoundNode) -> bool
    ensures { IsTrue result ↔ IsResident (node_found node.now).content }
{
    let blocks = node.blocks.as_slice();
    if blocks.len() as u64 != node.size.div_ceil(4096) {
        return false;
    }
    'each: for i in 0..blocks.len() {
        if !is_whole(&blocks[i]) {
            return false;
        }
    }
    true
}

/// The entries of a directory, if it has a block for each 4,096 bytes begun, without a hole, its
/// bytes are entries, and its last block is zero past the size.
fn entries_of(alloc: Global, node: &FoundNode) -> Result<Option<List<Entry>>, AllocError>
    requires few { length node.now.blocks.items < 2 ^ 32 }
    ensures { IfOk result (FindsEntries (node_found node.now).content) }
{
    if node.used != 0 {
        return Ok(None);
    }
    if !is_resident(node) {
        return Ok(None);
    }
    if !ends_in_zeros(&[], &[], node) {
        return Ok(None);
    }
    let bytes = plain_bytes(alloc, &[], &[], node)?;
    match decode(alloc, bytes.as_slice())? {
        Some(entries) => Ok(Some(entries)),
        None => Ok(None),
    }
}

/// What a node is used for; none where it is a directory whose bytes are no entries.
fn use_of(alloc: Global, node: &FoundNode) -> Result<Option<FoundUse>, AllocError>
    requires few { length node.now.blocks.items < 2 ^ 32 }
    ensures { IfOk result (FindsUse (node_found node.now)) }
{
    match node.kind {
        Kind::File => Ok(Some(FoundUse::File)),
        Kind::Dir => match entries_of(alloc, node)? {
            Some(entries) => Ok(Some(FoundUse::Directory(entries))),
            None => Ok(None),
        },
    }
}

/// What a number is used for, if it is in use; none at all where it is a directory whose bytes are
/// no entries.
fn use_at(
    alloc: Global,
    nodes: &[Option<FoundNode>],
    number: usize,
) -> Result<Option<Option<FoundUse>>, AllocError>
    requires there { number < length nodes.now }
    requires few { HaveFewBlocks nodes.now }
    ensures { let node = option_map node_found (slice_index_or nodes.now number None) in
        IfOk result (FindsUseAt node) }
{
    match &nodes[number] {
        Some(node) => match use_of(alloc, node)? {
            Some(found) => Ok(Some(Some(found))),
            None => Ok(None),
        },
        None => Ok(Some(None)),
    }
}

/// What each number is used for, from 0 on; none at all where the bytes of a directory are no
/// entries. It copies the bytes of each directory.
pub fn uses_of(
    alloc: Global,
    nodes: &[Option<FoundNode>],
) -> Result<Option<Vec<Option<FoundUse>>>, AllocError>
    requires { HaveFewBlocks nodes.now }
    ensures { IfOk result (FindsUses (nodes_found nodes.now)) }
{
    let mut uses = Vec::new(alloc);
    'numbers: for number in 0..nodes.len() {
        match use_at(alloc, nodes, number)? {
            Some(found) => uses.push(found)?,
            None => return Ok(None),
        }
    }
    Ok(Some(uses))
}
