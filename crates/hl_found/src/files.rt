//! The files of an image.

ghost use Rattle.std.specs.Prelude.{◌≡◌, ◌+◌, ◌*◌, ◌/◌, ◌<◌, ◌≤◌, ◌^◌, ◌↔◌, ℕ, length, None, IsTrue, IfOk, OnOk};
ghost use Rattle.std.specs.FinMap.{len};
ghost use Rattle.std.specs.List.{slice_index_or};
ghost use Rattle.hl_bytes.specs.Buffers.{block_of};
ghost use Rattle.hl_super.specs.Labels.{Spells};
ghost use Rattle.hl_image.specs.Newest.{label_of};
ghost use Rattle.hl_paths.specs.Numbered.{IsTreeOf, Numbering};
ghost use Rattle.hl_paths.specs.Nodes.{Spell};
ghost use Rattle.hl_placed.specs.Blocks.{PlacedFile};
ghost use Rattle.hl_placed.specs.Placed.{PlacedTree, plain};
ghost use Rattle.hl_inode.specs.declared.inode.Kind.TheVariants.{File};
ghost use Rattle.hl_nodes.specs.Found.{node_found, nodes_found};
ghost use Rattle.hl_found.specs.Charges.{HaveFewBlocks};
ghost use Rattle.hl_found.specs.Files.{FindsFiles, FindsTree, IsPut, ServesNodeAt};
ghost use Rattle.hl_found.specs.Files.{ServesNodes, plain_node};
ghost use Rattle.hl_found.specs.Found.{contents_found, AreFound};
ghost use Rattle.hl_found.specs.Reach.{ArePlaces};
ghost use Rattle.hl_found.specs.Shelves.{ServesFile, at_hand, shelf_of};
ghost use Rattle.hl_found.specs.Staged.{lines_end};

use crate::charges::charge_is_within;
use crate::contents::{FoundContents, contents_of};
use crate::directories::uses_of;
use crate::newest::label_of;
use crate::reach::{Reached, place_of, places_of};
use crate::shelves::{ShelfSegment, plain_bytes, serves_file, staged_segments};
use crate::soundness::is_sound;
use crate::staged::lines_hold_segments;
use hl_addr::Geometry;
use hl_bytes::BLOCK;
use hl_inode::Kind;
use hl_nodes::{FoundNode, block_at};
use hl_super::decode_label;
use hl_tree::{Copied, Limits, List, Node, PlainTree};
use std::alloc::{AllocError, Global};

/// As many nodes and bytes as may be.
const NO_LIMITS: Limits = Limits {
    nodes: u32::MAX,
    bytes: u64::MAX,
};

/// A directory, or a file with its bytes.
fn node_of(
    alloc: Global,
    staged: &[ShelfSegment],
    shelf: &[ShelfSegment],
    node: &FoundNode,
) -> Result<Node<List<u8>>, AllocError>
    ensures { let own = at_hand staged.now shelf.now in
        IfOk result (λ r. r ≡ plain_node own node.now) }
{
    match node.kind {
        Kind::Dir => Ok(Node::Dir),
        Kind::File => {
            let bytes = plain_bytes(alloc, staged, shelf, node)?;
            Ok(Node::File(List::of(bytes)))
        }
    }
}

/// Puts the node of a number where it is reached, if it is.
fn put_number(
    alloc: Global,
    tree: &mut PlainTree,
    staged: &[ShelfSegment],
    shelf: &[ShelfSegment],
    nodes: &[Option<FoundNode>],
    reached: &[Reached],
    number: usize,
) -> Result<(), AllocError>
    requires room { len tree.old.tree < tree.old.limits.nodes }
    ensures put { let own = at_hand staged.now shelf.now in
        let node = slice_index_or nodes.now number None in
        OnOk result (IsPut own node reached.now number tree.old.tree tree.new.tree) }
    ensures limits { OnOk result (tree.new.limits ≡ tree.old.limits) }
{
    if number >= nodes.len() {
        return Ok(());
    }
    match place_of(reached, number) {
        Some(i) => match &nodes[number] {
            Some(node) => {
                let path = reached[i].path.copy(alloc)?;
                let node = node_of(alloc, staged, shelf, node)?;
                tree.put(alloc, path, node)?;
                Ok(())
            }
            None => Ok(()),
        },
        None => Ok(()),
    }
}

/// The tree of nodes that are reached on these paths.
fn tree_of(
    alloc: Global,
    geometry: &Geometry,
    staged: &[ShelfSegment],
    shelf: &[ShelfSegment],
    nodes: &[Option<FoundNode>],
    reached: &[Reached],
) -> Result<PlainTree, AllocError>
    requires few { geometry.now.inodes ≤ 2048 }
    requires past { (i : ℕ) → geometry.now.inodes ≤ i → slice_index_or nodes.now i None ≡ None }
    ensures { let own = at_hand staged.now shelf.now in
        IfOk result (λ tree. (numbered : Numbering PlacedFile) (placed : PlacedTree)
        → Spell (nodes_found nodes.now) numbered → ArePlaces numbered reached.now
        → IsTreeOf numbered placed → plain own placed ≡ tree.tree) }
{
    let mut tree = PlainTree::new(alloc, NO_LIMITS)?;
    'numbers: for number in 0..geometry.inodes as usize {
        put_number(alloc, &mut tree, staged, shelf, nodes, reached, number)?;
    }
    Ok(tree)
}

/// Whether the shelf serves a node, if it is a file.
fn serves_node(staged: &[ShelfSegment], shelf: &[ShelfSegment], node: &FoundNode) -> bool
    requires { length node.now.blocks.items < 2 ^ 32 }
    ensures { let own = at_hand staged.now shelf.now in
        IsTrue result ↔ (node.now.kind ≡ File → ServesFile own (node_found node.now).content) }
{
    match node.kind {
        Kind::Dir => true,
        Kind::File => serves_file(staged, shelf, node),
    }
}

/// Whether the shelf serves the node of a number, if it is a file.
fn serves_at(
    staged: &[ShelfSegment],
    shelf: &[ShelfSegment],
    nodes: &[Option<FoundNode>],
    number: usize,
) -> bool
    requires there { number < length nodes.now }
    requires few { HaveFewBlocks nodes.now }
    ensures { let own = at_hand staged.now shelf.now in
        IsTrue result ↔ ServesNodeAt own (slice_index_or nodes.now number None) }
{
    match &nodes[number] {
        Some(node) => serves_node(staged, shelf, node),
        None => true,
    }
}

/// Whether the shelf serves each file.
fn serves_nodes(
    staged: &[ShelfSegment],
    shelf: &[ShelfSegment],
    nodes: &[Option<FoundNode>],
) -> bool
    requires { HaveFewBlocks nodes.now }
    ensures { IsTrue result ↔ ServesNodes (at_hand staged.now shelf.now) nodes.now }
{
    'numbers: for number in 0..nodes.len() {
        if !serves_at(staged, shelf, nodes, number) {
            return false;
        }
    }
    true
}

/// The tree of contents, where they are in order and the shelf serves it.
fn tree_in(
    alloc: Global,
    image: &[u8],
    geometry: &Geometry,
    found: &FoundContents,
    shelf: &[ShelfSegment],
) -> Result<Option<PlainTree>, AllocError>
    requires image { 4096 * lines_end geometry.now ≤ length image.now }
    requires found { AreFound geometry.now (block_of image.now) found.now }
    ensures { let c = contents_found found.now in let own = shelf_of shelf.now in
        IfOk result (FindsTree geometry.now (block_of image.now) c own) }
{
    let nodes = found.nodes.as_slice();
    let sound = is_sound(alloc, image, geometry, found)?;
    if !sound {
        return Ok(None);
    }
    let held = lines_hold_segments(alloc, image, geometry, found.tables.slots())?;
    if !held {
        return Ok(None);
    }
    if !charge_is_within(nodes, geometry.quota()) {
        return Ok(None);
    }
    let Some(uses) = uses_of(alloc, nodes)? else {
        return Ok(None);
    };
    let Some(reached) = places_of(alloc, uses.as_slice())? else {
        return Ok(None);
    };
    let staged = staged_segments(alloc, image, geometry, found.tables.slots().items())?;
    if !serves_nodes(staged.as_slice(), shelf, nodes) {
        return Ok(None);
    }
    let tree = tree_of(
        alloc,
        geometry,
        staged.as_slice(),
        shelf,
        nodes,
        reached.as_slice(),
    )?;
    Ok(Some(tree))
}

/// Whether the image has the site's label and the blocks up to the end of the lines.
fn has_label(image: &[u8], geometry: &Geometry) -> bool
    requires { length image.now < 2 ^ 44 }
    ensures label { IsTrue result
        ↔ Spells (length image.now / 4096) (block_of image.now 0) (label_of geometry.now) }
    ensures whole { IsTrue result → 4096 * lines_end geometry.now ≤ length image.now }
{
    if image.len() < BLOCK {
        return false;
    }
    let blocks = (image.len() / BLOCK) as u32;
    match decode_label(block_at(image, 0), blocks) {
        Some(label) => label == label_of(geometry),
        None => false,
    }
}

/// The files of an image, plainly and slowly: the tree of its nodes, with the bytes of the log, of
/// the image's own line for a block that is staged, and of the shelf for one that is home. None
/// where the image isn't one of the site, breaks one of the rules 1 to 15 of a mount
/// (`docs/FORMATS.md`, "Mounting"), or names a segment that the shelf lacks, or where a file isn't
/// zero past its size. It reads all that the image holds, more than once.
pub fn files_of(
    alloc: Global,
    image: &[u8],
    geometry: &Geometry,
    shelf: &[ShelfSegment],
) -> Result<Option<PlainTree>, AllocError>
    requires { length image.now < 2 ^ 44 }
    ensures { let blocks = length image.now / 4096 in let own = shelf_of shelf.now in
        IfOk result (FindsFiles blocks geometry.now (block_of image.now) own) }
{
    if !has_label(image, geometry) {
        return Ok(None);
    }
    match contents_of(alloc, image, geometry)? {
        Some(found) => tree_in(alloc, image, geometry, &found, shelf),
        None => Ok(None),
    }
}
