//! How much longer a call can make a dump.

ghost use Rattle.std.specs.Prelude.{◌≡◌, ◌+◌, ◌-◌, ◌^◌, ◌≤◌, length, min};
ghost use Rattle.std.specs.FinMap as map;
ghost use Rattle.hl_tree.specs.Names.{AreNames};
ghost use Rattle.hl_tree.specs.Rules.{after};
ghost use Rattle.hl_dump.specs.Dumps.{HasDump, dump_limits, dump_max, dump_size};
ghost use Rattle.hl_dump.specs.Longer.{content_in, most_growth, names_of, past, renamed};

use crate::entry::{entry_len, path_len};
use hl_tree::{Call, List, Node, PlainTree};

/// The bytes of the longest path.
const PATH_MAX: u64 = 1023;

/// How many bytes the file at a path has, and 0 where none stands.
fn file_len(tree: &PlainTree, path: &[List<u8>]) -> u64
    ensures { result ≡ length (content_in (map.get tree.now.tree path.now)) }
{
    match tree.get(path) {
        Some(Node::File(bytes)) => bytes.items().len() as u64,
        Some(Node::Dir) => 0,
        None => 0,
    }
}

/// How far `at` and `len` together exceed the size of the file at a path.
fn past_end(tree: &PlainTree, path: &[List<u8>], at: u64, len: u64) -> u64
    ensures { result ≡ min (past tree.now.tree path.now (at + len)) (2 ^ 64 - 1) }
{
    let size = file_len(tree, path);
    if at >= size {
        (at - size).saturating_add(len)
    } else {
        len.saturating_sub(size - at)
    }
}

/// The rows times the bytes of a new path.
fn moved_len(tree: &PlainTree, to: &[List<u8>]) -> u64
    ensures { result ≡ min (renamed tree.now.tree to.now) (2 ^ 64 - 1) }
{
    let rows = tree.rows().len() as u64;
    rows.saturating_mul(path_len(to).min(PATH_MAX))
}

/// What a call can add to a dump at most, or 2 ^ 64 - 1 if it is more.
fn added(tree: &PlainTree, call: &Call) -> u64
    ensures most { result ≡ min (most_growth tree.now.tree call.now) (2 ^ 64 - 1) }
    ensures named { AreNames (names_of call.now) }
{
    match call {
        Call::Mkdir { path } => entry_len(path.names(), &Node::Dir),
        Call::Create { path } => entry_len(path.names(), &Node::Dir).saturating_add(4),
        Call::Write { path, at, bytes } => {
            let names = path.names();
            if bytes.items().is_empty() {
                0
            } else {
                past_end(tree, names, *at, bytes.items().len() as u64)
            }
        }
        Call::Cut { path, size } => past_end(tree, path.names(), *size, 0),
        Call::Rename { to, .. } => moved_len(tree, to.names()),
        _ => 0,
    }
}

/// How many bytes longer a call can make the dump of a tree, at most: what the new entry has, or what
/// is written or cut past the end of a file; for a Rename the rows times the bytes of the new path.
/// It looks at one row, but for a Rename, which counts them.
pub fn growth(tree: &PlainTree, call: &Call) -> u64
    ensures most { result ≡ min (most_growth tree.now.tree call.now) (2 ^ 64 - 1) }
    ensures bound { tree.now.limits ≡ dump_limits → HasDump tree.now.tree → dump_size (after tree.now.limits tree.now.tree call.now) ≤ dump_size tree.now.tree + result }
    ensures kept { tree.now.limits ≡ dump_limits → HasDump tree.now.tree → dump_size (after tree.now.limits tree.now.tree call.now) ≤ dump_max → HasDump (after tree.now.limits tree.now.tree call.now) }
{
    added(tree, call)
}
