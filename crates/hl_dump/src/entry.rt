//! One entry of a dump: how long it is, and how it is written.

ghost use Rattle.std.specs.Prelude.{◌≡◌, ◌-◌, ◌^◌, ◌<◌, ◌≢◌, ◌++◌, ◌∷◌, min, [], length, OnOk};
ghost use Rattle.hl_bytes.specs.Fields.{le32};
ghost use Rattle.hl_tree.specs.Names.{path_length};
ghost use Rattle.hl_dump.specs.Dumps.{entry_bytes, path_bytes};
ghost use Rattle.hl_dump.specs.Sizes.{entry_size, content_size};

use hl_tree::{List, Node};
use std::alloc::AllocError;

/// The kind of an entry: a file.
pub const FILE: u8 = 1;

/// The kind of an entry: a directory.
pub const DIRECTORY: u8 = 2;

/// The bytes of the names and their slashes, or 2 ^ 64 - 1 if they are more.
pub fn path_len(names: &[List<u8>]) -> u64
    ensures { result ≡ min (path_length names.now) (2 ^ 64 - 1) }
{
    let mut total: u64 = 0;
    'names: for name in names {
        total = total
            .saturating_add(1)
            .saturating_add(name.items().len() as u64);
    }
    total
}

/// The bytes of a node behind its path, or 2 ^ 64 - 1 if they are more.
fn content_len(node: &Node<List<u8>>) -> u64
    ensures { result ≡ min (content_size node.now) (2 ^ 64 - 1) }
{
    match node {
        Node::Dir => 0,
        Node::File(bytes) => (bytes.items().len() as u64).saturating_add(4),
    }
}

/// The bytes of an entry, or 2 ^ 64 - 1 if they are more. The root has none.
pub fn entry_len(names: &[List<u8>], node: &Node<List<u8>>) -> u64
    ensures { result ≡ min (entry_size (names.now, node.now)) (2 ^ 64 - 1) }
{
    if names.is_empty() {
        return 0;
    }
    path_len(names)
        .saturating_add(5)
        .saturating_add(content_len(node))
}

/// Appends a slash and each name.
fn put_path(out: &mut Vec<u8>, names: &[List<u8>]) -> Result<(), AllocError>
    ensures { OnOk result (out.new.items ≡ out.old.items ++ path_bytes names.now) }
{
    'names: for name in names {
        out.push(47)?;
        out.extend_from_slice(name.items())?;
    }
    Ok(())
}

/// Appends the kind of an entry, its path and the length of the path.
#[tactic(auto, unfolding(hl_bytes::specs::Fields::le32))]
fn put_head(out: &mut Vec<u8>, kind: u8, names: &[List<u8>]) -> Result<(), AllocError>
    requires { path_length names.now < 2 ^ 32 }
    ensures { OnOk result (out.new.items ≡ out.old.items ++ ((kind ∷ le32 (path_length names.now)) ++ path_bytes names.now)) }
{
    out.push(kind)?;
    out.extend_from_slice(&(path_len(names) as u32).to_le_bytes())?;
    put_path(out, names)
}

/// Appends the length of a file, and its bytes.
#[tactic(auto, unfolding(hl_bytes::specs::Fields::le32))]
fn put_content(out: &mut Vec<u8>, bytes: &[u8]) -> Result<(), AllocError>
    requires { length bytes.now < 2 ^ 32 }
    ensures { OnOk result (out.new.items ≡ (out.old.items ++ le32 (length bytes.now)) ++ bytes.now) }
{
    out.extend_from_slice(&(bytes.len() as u32).to_le_bytes())?;
    out.extend_from_slice(bytes)?;
    Ok(())
}

/// Appends an entry. The root has none.
pub fn put_entry(
    out: &mut Vec<u8>,
    names: &[List<u8>],
    node: &Node<List<u8>>,
) -> Result<(), AllocError>
    requires { entry_size (names.now, node.now) < 2 ^ 32 }
    ensures { OnOk result (out.new.items ≡ out.old.items ++ entry_bytes (names.now, node.now)) }
{
    if names.is_empty() {
        return Ok(());
    }
    match node {
        Node::Dir => put_head(out, DIRECTORY, names),
        Node::File(bytes) => {
            put_head(out, FILE, names)?;
            put_content(out, bytes.items())
        }
    }
}
