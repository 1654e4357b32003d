//! What a stop leaves, beside nodes as a test wants them.

use hl_inode::Kind;
use hl_mem::Tear;
use hl_tree::{List, Node as TreeNode, Path};
use hl_trial::stores::{PlainNode, Stored, are_nodes};
use std::alloc::{AllocError, Global};
use std::process::Abort;
use std::test::*;

/// What becomes of unsynced writes.
pub(super) const TEARS: [Tear; 4] = [Tear::Old, Tear::New, Tear::Prefix(5_000), Tear::Filled(0)];

/// The names of the files of a trial, from number 2 on.
const LETTERS: [u8; 8] = *b"abcdefgh";

/// The bytes of a file of whole blocks.
fn bytes_of(alloc: Global, node: &PlainNode) -> Result<Vec<u8>, AllocError> {
    let mut bytes = Vec::new(alloc);
    for block in node.blocks.as_slice() {
        bytes.extend_from_slice(block.bytes().as_slice())?;
    }
    Ok(bytes)
}

/// Whether a row of files is this node on the path of these letters.
fn is_row(
    alloc: Global,
    row: &(Path, TreeNode<List<u8>>),
    letter: Option<u8>,
    node: &PlainNode,
) -> Result<bool, AllocError> {
    let is_path = match (row.0.names(), letter) {
        ([], None) => true,
        ([name], Some(wanted)) => name.items() == [wanted].as_slice(),
        _ => false,
    };
    match &row.1 {
        TreeNode::Dir => Ok(is_path && node.kind == Kind::Dir),
        TreeNode::File(bytes) => {
            let wanted = bytes_of(alloc, node)?;
            Ok(is_path && node.kind == Kind::File && bytes.items() == wanted.as_slice())
        }
    }
}

/// Whether files are those of these nodes, of which number 1 is the root and the others are in it.
fn are_files(
    alloc: Global,
    rows: &[(Path, TreeNode<List<u8>>)],
    nodes: &[Option<PlainNode>],
) -> Result<bool, AllocError> {
    if rows.len() + 1 != nodes.len() {
        return Ok(false);
    }
    for i in 0..rows.len() {
        let letter = if i == 0 {
            None
        } else {
            LETTERS.get(i - 1).copied()
        };
        let is = match &nodes[i + 1] {
            Some(node) => is_row(alloc, &rows[i], letter, node)?,
            None => false,
        };
        if !is {
            return Ok(false);
        }
    }
    Ok(true)
}

/// Whether a stop at a moment leaves the files of these nodes.
pub(super) fn leaves_files<T: Stored>(
    alloc: Global,
    store: &T,
    moment: u64,
    tear: Tear,
    nodes: &[Option<PlainNode>],
) -> Result<bool, AllocError> {
    match store.files(alloc, moment, tear)? {
        Some(tree) => are_files(alloc, tree.rows(), nodes),
        None => Ok(false),
    }
}

/// Which of two lists of nodes a stop at a moment leaves: false for the first, true for the second.
pub(super) fn which_left<T: Stored>(
    alloc: Global,
    store: &T,
    moment: u64,
    tear: Tear,
    before: &[Option<PlainNode>],
    after: &[Option<PlainNode>],
) -> Result<Option<bool>, AllocError> {
    let Some(found) = store.nodes(alloc, moment, tear)? else {
        return Ok(None);
    };
    if are_nodes(found.as_slice(), before) {
        return Ok(Some(false));
    }
    if are_nodes(found.as_slice(), after) {
        return Ok(Some(true));
    }
    Ok(None)
}

/// A stop at a moment leaves the nodes of before, or those of after.
pub(super) fn leaves_one_of<T: Stored>(
    rt: &impl Abort,
    alloc: Global,
    store: &T,
    moment: u64,
    before: &[Option<PlainNode>],
    after: &[Option<PlainNode>],
) -> Result<(), Fail> {
    for tear in TEARS {
        let which = which_left(alloc, store, moment, tear, before, after)?;
        assert!(rt; which.is_some(), "moment {moment}");
    }
    Ok(())
}
