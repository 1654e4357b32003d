//! Reading one entry of a dump.

ghost use Rattle.std.specs.Prelude.{◌≤◌, IfOk, length};
ghost use Rattle.hl_dump.specs.Parsing.{ReadsHead, ReadsContent, ReadsEntry};

use crate::entry::{DIRECTORY, FILE};
use crate::path::read_path;
use hl_bytes::get_u32;
use hl_tree::{List, Node, Path};
use std::alloc::{AllocError, Global};

/// The kind and the path of an entry, and where they end.
#[derive(Drop)]
struct Head {
    kind: u8,
    path: Path,
    end: usize,
}

/// The bytes of a file, and where they end.
#[derive(Drop)]
struct Content {
    bytes: List<u8>,
    end: usize,
}

/// A node and its path, and where its entry ends.
#[derive(Drop)]
pub struct Entry {
    pub path: Path,
    pub node: Node<List<u8>>,
    pub end: usize,
}

/// The kind and the path from `at` on. None where the bytes are cut short, or the path is off the form.
fn read_head(alloc: Global, bytes: &[u8], at: usize) -> Result<Option<Head>, AllocError>
    requires { at ≤ length bytes.now }
    ensures { IfOk result (λ head. ReadsHead bytes.now at head) }
{
    if bytes.len() - at < 5 {
        return Ok(None);
    }
    let kind = bytes[at];
    let size = get_u32(bytes, at + 1) as usize;
    let from = at + 5;
    if bytes.len() - from < size {
        return Ok(None);
    }
    let end = from + size;
    let Some(path) = read_path(alloc, &bytes[from..end])? else {
        return Ok(None);
    };
    Ok(Some(Head { kind, path, end }))
}

/// The bytes of a file, with their length before them, from `at` on. None where they are cut short.
fn read_content(alloc: Global, bytes: &[u8], at: usize) -> Result<Option<Content>, AllocError>
    requires { at ≤ length bytes.now }
    ensures { IfOk result (λ content. ReadsContent bytes.now at content) }
{
    if bytes.len() - at < 4 {
        return Ok(None);
    }
    let size = get_u32(bytes, at) as usize;
    let from = at + 4;
    if bytes.len() - from < size {
        return Ok(None);
    }
    let end = from + size;
    let bytes = List::of(Vec::from_slice(alloc, &bytes[from..end])?);
    Ok(Some(Content { bytes, end }))
}

/// The entry from `at` on, and None where no entry stands there.
pub fn read_entry(alloc: Global, bytes: &[u8], at: usize) -> Result<Option<Entry>, AllocError>
    requires { at ≤ length bytes.now }
    ensures { IfOk result (λ entry. ReadsEntry bytes.now at entry) }
{
    let Some(head) = read_head(alloc, bytes, at)? else {
        return Ok(None);
    };
    if head.kind == DIRECTORY {
        return Ok(Some(Entry {
            path: head.path,
            node: Node::Dir,
            end: head.end,
        }));
    }
    if head.kind != FILE {
        return Ok(None);
    }
    let Some(content) = read_content(alloc, bytes, head.end)? else {
        return Ok(None);
    };
    Ok(Some(Entry {
        path: head.path,
        node: Node::File(content.bytes),
        end: content.end,
    }))
}
