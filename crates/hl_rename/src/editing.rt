//! The bytes of the directories that a rename changes.

ghost use Rattle.std.specs.Prelude.{◌≡◌, ◌≤◌, IfSome};
ghost use Rattle.hl_dir.specs.Dirs.{IsName};
ghost use Rattle.hl_paths.specs.Entries.{with_entry, without_entry};
ghost use Rattle.hl_rename.specs.Edits.{Edits, IsNoLonger, IsNoLongerIf};

use hl_entries::{insert, remove};
use hl_links::DirectoryChange;
use hl_walk::ParentFound;

/// The directory with a number under another name.
pub(crate) fn renamed(
    parent: ParentFound,
    name: &[u8],
    to_name: &[u8],
    number: u32,
) -> Option<DirectoryChange>
    requires { IsName to_name.now }
    ensures edits { IfSome result
        (Edits (λ es. with_entry to_name.now number (without_entry name.now es)) parent) }
    ensures size { IfSome result (IsNoLongerIf to_name.now parent) }
{
    let mut bytes = parent.bytes;
    let first = remove(&mut bytes, name)?;
    let Ok(second) = insert(&mut bytes, to_name, number) else {
        return None;
    };
    let from = lower(first, second);
    Some(DirectoryChange {
        number: parent.number,
        bytes,
        from,
    })
}

/// The lower of two places.
fn lower(one: usize, other: usize) -> usize
    ensures one { result ≤ one }
    ensures other { result ≤ other }
{
    if one < other { one } else { other }
}

/// The directory without a name.
pub(crate) fn parted(parent: ParentFound, name: &[u8]) -> Option<DirectoryChange>
    ensures edits { IfSome result (Edits (without_entry name.now) parent) }
    ensures size { IfSome result (IsNoLonger parent) }
{
    let mut bytes = parent.bytes;
    let from = remove(&mut bytes, name)?;
    Some(DirectoryChange {
        number: parent.number,
        bytes,
        from,
    })
}

/// The directory with a number under a name.
pub(crate) fn joined(parent: ParentFound, name: &[u8], number: u32) -> Option<DirectoryChange>
    requires { IsName name.now }
    ensures edits { IfSome result (Edits (with_entry name.now number) parent) }
    ensures size { IfSome result (IsNoLongerIf name.now parent) }
{
    let mut bytes = parent.bytes;
    let Ok(from) = insert(&mut bytes, name, number) else {
        return None;
    };
    Some(DirectoryChange {
        number: parent.number,
        bytes,
        from,
    })
}
