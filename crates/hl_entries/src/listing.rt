//! The names in a directory's bytes.

ghost use Rattle.std.specs.Prelude.{◌≡◌, length, IfOk};
ghost use Rattle.hl_paths.specs.Entries.{entry_names};
ghost use Rattle.hl_entries.specs.Places.{IfSpells};

use crate::searching::entry_end;
use hl_tree::List;
use std::alloc::{AllocError, Global};

/// The names in their order.
pub fn names(alloc: Global, bytes: &[u8]) -> Result<List<List<u8>>, AllocError>
    ensures { IfOk result (λ names. IfSpells bytes.now (λ es. names ≡ entry_names es)) }
{
    let mut names = Vec::new(alloc);
    let mut at = 0;
    'entries: while let Some(end) = entry_end(bytes, at) {
        let name = List::of(Vec::from_slice(alloc, &bytes[at + 5..end])?);
        names.push(name)?;
        at = end;
    }
    Ok(List::of(names))
}

/// How many names there are.
pub fn count(bytes: &[u8]) -> usize
    ensures { IfSpells bytes.now (λ es. result ≡ length es) }
{
    let mut count = 0;
    let mut at = 0;
    'entries: while let Some(end) = entry_end(bytes, at) {
        count += 1;
        at = end;
    }
    count
}
