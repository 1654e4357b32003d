//! What the nodes of an image are charged.

ghost use Rattle.std.specs.Prelude.{◌≡◌, ◌+◌, ◌<◌, ◌≤◌, ◌^◌, ◌↔◌, length, drop, not, map, IsTrue, count_by, None};
ghost use Rattle.std.specs.List.{list_any, slice_index_or};
ghost use Rattle.hl_paths.specs.Nodes.{flat_charge};
ghost use Rattle.hl_placed.specs.Blocks.{is_here, is_hole};
ghost use Rattle.hl_placed.specs.Charges.{blocks_charge};
ghost use Rattle.hl_nodes.specs.Found.{block_found, node_found, nodes_found};
ghost use Rattle.hl_found.specs.Charges.{charge_found, HaveFewBlocks};

use hl_nodes::{FoundBlock, FoundNode};

fn is_hole(block: &FoundBlock) -> bool
    ensures { result ≡ is_hole (block_found block.now) }
{
    match block {
        FoundBlock::Hole => true,
        _ => false,
    }
}

fn is_here(block: &FoundBlock) -> bool
    ensures { result ≡ is_here (block_found block.now) }
{
    match block {
        FoundBlock::Here(_) => true,
        _ => false,
    }
}

/// How many of the blocks are in the log.
fn count_here(blocks: &[FoundBlock]) -> usize
    ensures count { result ≡ count_by is_here (map block_found blocks.now) }
    ensures most { result ≤ length blocks.now }
{
    let mut count = 0;
    'each: for i in 0..blocks.len() {
        if is_here(&blocks[i]) {
            count += 1;
        }
    }
    count
}

/// Whether a block from block 12 on isn't a hole.
fn has_pointers(blocks: &[FoundBlock]) -> bool
    ensures { result
        ≡ list_any (λ block. not (is_hole block)) (drop 12 (map block_found blocks.now)) }
{
    'each: for i in 12..blocks.len() {
        if !is_hole(&blocks[i]) {
            return true;
        }
    }
    false
}

/// What a node is charged: a block for its inode, one for its pointer block, if it has one, and
/// those of its blocks that are in the log.
fn charge_of(node: &FoundNode) -> u64
    requires few { length node.now.blocks.items < 2 ^ 32 }
    ensures value { result ≡ blocks_charge (node_found node.now).content.blocks }
    ensures small { result < 2 ^ 33 }
{
    let blocks = node.blocks.as_slice();
    if has_pointers(blocks) {
        2 + count_here(blocks) as u64
    } else {
        1 + count_here(blocks) as u64
    }
}

/// What the node of a number is charged, if there is one.
fn charge_at(nodes: &[Option<FoundNode>], number: usize) -> u64
    requires there { number < length nodes.now }
    requires few { HaveFewBlocks nodes.now }
    ensures { result ≡ charge_found (slice_index_or nodes.now number None) }
{
    match &nodes[number] {
        Some(node) => charge_of(node),
        None => 0,
    }
}

/// Whether the nodes are charged at most so many blocks.
pub fn charge_is_within(nodes: &[Option<FoundNode>], quota: u32) -> bool
    requires { HaveFewBlocks nodes.now }
    ensures { IsTrue result ↔ flat_charge (nodes_found nodes.now) ≤ quota }
{
    let mut left = quota as u64;
    'each: for number in 0..nodes.len() {
        let charge = charge_at(nodes, number);
        if left < charge {
            return false;
        }
        left -= charge;
    }
    true
}
