//! Reading a dump.

ghost use Rattle.std.specs.Prelude.{◌≡◌, ◌≢◌, ◌↔◌, ◌≤◌, Some, [], All, IfOk, IsNone, IsTrue, length};
ghost use Rattle.std.specs.FinMap as map;
ghost use Rattle.std.specs.declared.cmp.Ordering.TheVariants.{Less};
ghost use Rattle.hl_tree.specs.Names.{path_cmp};
ghost use Rattle.hl_tree.specs.Places.{InOrder};
ghost use Rattle.hl_tree.specs.Rules.{Files};
ghost use Rattle.hl_tree.specs.declared.node.Node.TheVariants.{Dir};
ghost use Rattle.hl_dump.specs.Dumps.{IsDump, dump_limits};
ghost use Rattle.hl_dump.specs.Growing.{IsNext, ReadsOn, parent_of};

use crate::parse::read_entry;
use crate::size::DUMP_MAX;
use hl_tree::{Limits, List, Node, Path, PlainTree};
use std::alloc::{AllocError, Global};

/// The limits of the trees that are dumped: how many nodes, the root among them, and how many bytes a file.
pub const DUMP_LIMITS: Limits = Limits {
    nodes: 511,
    bytes: 4_243_456,
};

/// Whether a path comes behind all rows.
fn comes_last(rows: &[(Path, Node<List<u8>>)], path: &[List<u8>]) -> bool
    requires { InOrder rows.now }
    ensures { IsTrue result ↔ All (λ row. path_cmp row.0 path.now ≡ Less) rows.now }
{
    if rows.is_empty() {
        return true;
    }
    let last = &rows[rows.len() - 1];
    last.0.names().cmp(&path).is_lt()
}

/// Whether the parent of a path is a directory.
fn has_parent(tree: &PlainTree, path: &[List<u8>]) -> bool
    requires { path.now ≢ [] }
    ensures { IsTrue result ↔ (map.get tree.now.tree (parent_of path.now) ≡ Some Dir) }
{
    match tree.get(&path[..path.len() - 1]) {
        Some(Node::Dir) => true,
        Some(Node::File(_)) => false,
        None => false,
    }
}

/// Whether a node at a path can come next: there is room, the path comes behind all others, and its
/// parent is a directory.
fn is_next(tree: &PlainTree, path: &[List<u8>]) -> bool
    requires { path.now ≢ [] }
    ensures { IsTrue result ↔ IsNext tree.now.tree path.now }
{
    let rows = tree.rows();
    if rows.len() >= DUMP_LIMITS.nodes as usize {
        return false;
    }
    if !comes_last(rows, path) {
        return false;
    }
    has_parent(tree, path)
}

/// Reads the entry from `at` on and puts its node into the tree: where the entry ends, or None where
/// no entry stands there that can come next.
fn read_on(
    tree: &mut PlainTree,
    alloc: Global,
    bytes: &[u8],
    at: usize,
) -> Result<Option<usize>, AllocError>
    requires within { at ≤ length bytes.now }
    requires limits { tree.old.limits ≡ dump_limits }
    ensures limits { tree.new.limits ≡ dump_limits }
    ensures read { IfOk result (λ end. ReadsOn bytes.now at tree.old.tree tree.new.tree end) }
{
    let Some(entry) = read_entry(alloc, bytes, at)? else {
        return Ok(None);
    };
    if !is_next(tree, entry.path.names()) {
        return Ok(None);
    }
    let end = entry.end;
    tree.put(alloc, entry.path, entry.node)?;
    Ok(Some(end))
}

/// The tree whose dump the bytes are, with the limits of a dump, and None where they are the dump of
/// no tree: they are too long or cut short, a kind is unknown, a path is off the form or out of order,
/// a parent is missing or a file, or the entries are more than 510.
/// Each byte of a file is copied once. Each entry looks its parent and its own place up among the rows
/// before it, by binary search.
pub fn read_dump(alloc: Global, bytes: &[u8]) -> Result<Option<PlainTree>, AllocError>
    ensures found { IfOk result (λ r. (t : Files) → (r ≡ Some (record { limits = dump_limits; tree = t })) ↔ IsDump bytes.now t) }
    ensures none { IfOk result (λ r. IsNone r ↔ ((t : Files) → ¬ IsDump bytes.now t)) }
{
    if bytes.len() as u64 > DUMP_MAX {
        return Ok(None);
    }
    let mut tree = PlainTree::new(alloc, DUMP_LIMITS)?;
    let mut at = 0;
    'entries: while at < bytes.len() {
        let Some(end) = read_on(&mut tree, alloc, bytes, at)? else {
            return Ok(None);
        };
        at = end;
    }
    Ok(Some(tree))
}
