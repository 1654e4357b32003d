//! Reading a directory's bytes.

ghost use Rattle.std.specs.Prelude.{◌≡◌, ◌↔◌, Some, IsTrue, IsNone, IfOk, List as Items, length};
ghost use Rattle.hl_dir.specs.Dirs.{IsName, AreNames, AreOrdered, AreSorted, IsBefore, Reads, Spells};

use crate::entry::Entry;
use hl_bytes::get_u32;
use hl_tree::List;
use std::alloc::{AllocError, Global};
use std::cmp::Ordering;

/// The entries one after the other, where the bytes are nothing else.
fn entries_in(alloc: Global, bytes: &[u8]) -> Result<Option<Vec<Entry>>, AllocError>
    ensures { IfOk result (λ r. Reads bytes.now r) }
{
    let mut entries = Vec::new(alloc);
    let mut at = 0;
    'entries: while at < bytes.len() {
        if bytes.len() - at < 5 {
            return Ok(None);
        }
        let ino = get_u32(bytes, at);
        let size = bytes[at + 4] as usize;
        if bytes.len() - at - 5 < size {
            return Ok(None);
        }
        let name = List::of(Vec::from_slice(alloc, &bytes[at + 5..at + 5 + size])?);
        entries.push(Entry { ino, name })?;
        at += 5 + size;
    }
    Ok(Some(entries))
}

/// Whether the bytes are a name.
fn is_name(name: &[u8]) -> bool
    ensures { IsTrue result ↔ IsName name.now }
{
    for byte in name {
        if *byte == 0 || *byte == 47 {
            return false;
        }
    }
    !name.is_empty() && name.len() <= 255
}

/// Whether each entry has a name.
fn are_names(entries: &[Entry]) -> bool
    ensures { IsTrue result ↔ AreNames entries.now }
{
    for entry in entries {
        if !is_name(entry.name.items()) {
            return false;
        }
    }
    true
}

/// Whether one name comes before another.
fn is_before(first: &[u8], second: &[u8]) -> bool
    ensures { IsTrue result ↔ IsBefore first.now second.now }
{
    matches!(first.cmp(second), Ordering::Less)
}

/// Whether each name comes before the next.
fn are_ordered(entries: &[Entry]) -> bool
    ensures { IsTrue result ↔ AreOrdered entries.now }
{
    'order: for i in 1..entries.len() {
        if !is_before(entries[i - 1].name.items(), entries[i].name.items()) {
            return false;
        }
    }
    true
}

/// Whether each entry has a name, and each name comes before the next.
fn are_sorted(entries: &[Entry]) -> bool
    ensures { IsTrue result ↔ AreSorted entries.now }
{
    are_names(entries) && are_ordered(entries)
}

/// The entries that the bytes spell, and none exactly where they spell no list of entries. The work
/// and the memory grow with the number of bytes.
pub fn decode(alloc: Global, bytes: &[u8]) -> Result<Option<List<Entry>>, AllocError>
    ensures found { IfOk result (λ r. (v : Items Entry) → (r ≡ Some v) ↔ Spells bytes.now v) }
    ensures none { IfOk result (λ r. IsNone r ↔ ((v : Items Entry) → ¬ Spells bytes.now v)) }
{
    let Some(entries) = entries_in(alloc, bytes)? else {
        return Ok(None);
    };
    let entries = List::of(entries);
    if are_sorted(entries.items()) {
        Ok(Some(entries))
    } else {
        Ok(None)
    }
}
