//! Whether the contents of an image are sound.

ghost use Rattle.std.specs.Prelude.{◌≡◌, ◌*◌, ◌≤◌, ◌↔◌, length, IsTrue, IfOk};
ghost use Rattle.hl_bytes.specs.Buffers.{block_of};
ghost use Rattle.hl_image.specs.Places.{log_end};
ghost use Rattle.hl_inode.specs.declared.inode.Kind.TheVariants.{Dir};
ghost use Rattle.hl_nodes.specs.Found.{node_found, nodes_found};
ghost use Rattle.hl_nodes.specs.Sound.{IsSound};
ghost use Rattle.hl_found.specs.Found.{contents_found, AreFound};
ghost use Rattle.hl_found.specs.Soundness.{HasRoot};

use crate::away::aways_are_apart;
use crate::contents::FoundContents;
use crate::live::{lie_apart, live_blocks};
use crate::segments::blocks_are_in_place;
use crate::slots::{next_tertiary, slots_are_possible};
use hl_addr::{Geometry, NOTHING};
use hl_inode::Kind;
use hl_nodes::FoundNode;
use std::alloc::{AllocError, Global};

/// Whether a node is a directory.
fn is_directory(node: &FoundNode) -> bool
    ensures { IsTrue result ↔ (node_found node.now).kind ≡ Dir }
{
    match node.kind {
        Kind::Dir => true,
        Kind::File => false,
    }
}

/// Whether number 1 is a directory.
fn has_root(nodes: &[Option<FoundNode>]) -> bool
    ensures { IsTrue result ↔ HasRoot (nodes_found nodes.now) }
{
    if nodes.len() < 2 {
        return false;
    }
    match &nodes[1] {
        Some(node) => is_directory(node),
        None => false,
    }
}

/// Whether the contents that were found in an image are sound: the root is a directory and number 0
/// is free, no two blocks have one address, each live block lies in a used segment and none ahead
/// of the log's head, and the slots are possible. The image has at least the log's segments. It
/// reads each inode, compares each pair of live blocks and of away blocks, and goes over the blocks
/// of the chain for each live block.
pub fn is_sound(
    alloc: Global,
    image: &[u8],
    geometry: &Geometry,
    found: &FoundContents,
) -> Result<bool, AllocError>
    requires image { 4096 * log_end geometry.now ≤ length image.now }
    requires found { AreFound geometry.now (block_of image.now) found.now }
    ensures { let c = contents_found found.now in
        IfOk result (λ r. IsTrue r ↔ IsSound geometry.now (block_of image.now) c) }
{
    if found.tables.inode(0) != NOTHING {
        return Ok(false);
    }
    if !has_root(found.nodes.as_slice()) {
        return Ok(false);
    }
    let lives = live_blocks(alloc, image, geometry, found)?;
    if !lie_apart(lives.as_slice()) {
        return Ok(false);
    }
    if !blocks_are_in_place(geometry, found, lives.as_slice()) {
        return Ok(false);
    }
    if !aways_are_apart(found.nodes.as_slice()) {
        return Ok(false);
    }
    let next = next_tertiary(found);
    Ok(slots_are_possible(geometry, found.tables.slots(), next))
}
