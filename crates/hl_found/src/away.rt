//! Whether the away blocks of nodes are apart.

ghost use Rattle.std.specs.Prelude.{◌≡◌, ◌<◌, ◌≤◌, ◌↔◌, length, IsTrue};
ghost use Rattle.hl_placed.specs.Blocks.{Away};
ghost use Rattle.hl_nodes.specs.Found.{block_found, node_found, nodes_found};
ghost use Rattle.hl_nodes.specs.Sound.{AwayOnce};
ghost use Rattle.hl_found.specs.Away.{HasAwayFrom, HasEachOnce, HasSameFrom, IsApart};
ghost use Rattle.hl_found.specs.Away.{ShareNone, SharesNoneBefore, SharesNoneWith};

use hl_nodes::{FoundBlock, FoundNode};

/// Whether a block is away at this place.
fn is_away_at(block: &FoundBlock, at_serial: u64, at_position: u32) -> bool
    ensures { IsTrue result ↔ block_found block.now ≡ Away at_serial at_position }
{
    match block {
        FoundBlock::Away { serial, position } => *serial == at_serial && *position == at_position,
        _ => false,
    }
}

/// Whether one of the node's blocks from this one on is away at this place.
fn has_away_from(node: &FoundNode, from: usize, serial: u64, position: u32) -> bool
    ensures { IsTrue result ↔ HasAwayFrom from serial position (node_found node.now).content }
{
    let blocks = node.blocks.as_slice();
    'each: for j in from..blocks.len() {
        if is_away_at(&blocks[j], serial, position) {
            return true;
        }
    }
    false
}

/// Whether the node has a block from this one on that is away where a block is.
fn has_same_from(node: &FoundNode, from: usize, block: &FoundBlock) -> bool
    ensures { IsTrue result
        ↔ HasSameFrom from (block_found block.now) (node_found node.now).content }
{
    match block {
        FoundBlock::Away { serial, position } => has_away_from(node, from, *serial, *position),
        _ => false,
    }
}

/// Whether no two blocks of the node are one away block. It compares each pair.
fn has_each_once(node: &FoundNode) -> bool
    ensures { IsTrue result ↔ HasEachOnce (node_found node.now).content }
{
    let blocks = node.blocks.as_slice();
    'ones: for i in 0..blocks.len() {
        if has_same_from(node, i + 1, &blocks[i]) {
            return false;
        }
    }
    true
}

/// Whether two nodes have no away block in common. It compares each pair.
fn share_none(one: &FoundNode, other: &FoundNode) -> bool
    ensures { IsTrue result
        ↔ ShareNone (node_found one.now).content (node_found other.now).content }
{
    let blocks = one.blocks.as_slice();
    'ones: for i in 0..blocks.len() {
        if has_same_from(other, 0, &blocks[i]) {
            return false;
        }
    }
    true
}

/// Whether a node has no away block in common with the node of a number.
fn shares_none_with(nodes: &[Option<FoundNode>], n: usize, node: &FoundNode) -> bool
    requires { n < length nodes.now }
    ensures { IsTrue result
        ↔ SharesNoneWith (nodes_found nodes.now) n (node_found node.now).content }
{
    match &nodes[n] {
        Some(other) => share_none(node, other),
        None => true,
    }
}

/// Whether a node has no away block in common with the nodes of lesser numbers.
fn shares_none_before(nodes: &[Option<FoundNode>], number: usize, node: &FoundNode) -> bool
    requires { number ≤ length nodes.now }
    ensures { let file = (node_found node.now).content in
        IsTrue result ↔ SharesNoneBefore (nodes_found nodes.now) number file }
{
    'others: for n in 0..number {
        if !shares_none_with(nodes, n, node) {
            return false;
        }
    }
    true
}

/// Whether the node of a number has each away block once, and none that one of a lesser number has.
fn is_apart(nodes: &[Option<FoundNode>], number: usize) -> bool
    requires { number < length nodes.now }
    ensures { IsTrue result ↔ IsApart (nodes_found nodes.now) number }
{
    match &nodes[number] {
        Some(node) => has_each_once(node) && shares_none_before(nodes, number, node),
        None => true,
    }
}

/// Whether no block of a tertiary segment is a block of two of the nodes, or two blocks of one. It
/// compares each pair of blocks.
pub fn aways_are_apart(nodes: &[Option<FoundNode>]) -> bool
    ensures { IsTrue result ↔ AwayOnce (nodes_found nodes.now) }
{
    'ones: for number in 0..nodes.len() {
        if !is_apart(nodes, number) {
            return false;
        }
    }
    true
}
