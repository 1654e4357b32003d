//! Writing a directory's bytes.

ghost use Rattle.std.specs.Prelude.{◌≡◌, ◌≤◌, ◌++◌, length, OnOk, IfOk};
ghost use Rattle.hl_dir.specs.Dirs.{AreSorted, HasRoom, Spells, dir_bytes, entry_bytes};

use crate::entry::Entry;
use std::alloc::{AllocError, Global};

/// Appends one entry.
#[tactic(auto, unfolding(hl_bytes::specs::Fields::le32))]
fn put_entry(out: &mut Vec<u8>, entry: &Entry) -> Result<(), AllocError>
    requires { length entry.now.name ≤ 255 }
    ensures bytes { OnOk result (out.new.items ≡ out.old.items ++ entry_bytes entry.now) }
    ensures room { OnOk result (HasRoom entry.now) }
{
    let name = entry.name.items();
    out.extend_from_slice(&entry.ino.to_le_bytes())?;
    out.push(name.len() as u8)?;
    out.extend_from_slice(name)?;
    Ok(())
}

/// The one spelling of entries that have names and stand in their order, which is read as these
/// entries.
pub fn encode(alloc: Global, entries: &[Entry]) -> Result<Vec<u8>, AllocError>
    requires { AreSorted entries.now }
    ensures bytes { IfOk result (λ bytes. bytes.items ≡ dir_bytes entries.now) }
    ensures spelled { IfOk result (λ bytes. Spells bytes.items entries.now) }
{
    let mut out = Vec::new(alloc);
    for entry in entries {
        put_entry(&mut out, entry)?;
    }
    Ok(out)
}
