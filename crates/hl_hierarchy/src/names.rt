//! Who names whom: for each number the directory whose entry names it.

ghost use Rattle.std.specs.Prelude.{◌≡◌, ◌≢◌, ◌⊎◌, ◌↔◌, ◌<◌, ◌≤◌, false, length, slice_index, IsTrue};
ghost use Rattle.hl_hierarchy.specs.Naming.{IsNameable, IsOffSomewhere, Notes, NotesEach, numbers};

use hl_dir::Entry;
use hl_survey::FoundInode;

/// The number of the root.
const ROOT: u32 = 1;

/// Whether an entry may name the number: it is in use, and isn't the root.
fn is_nameable(found: &[Option<FoundInode>], child: u32) -> bool
    ensures may { IsTrue result ↔ IsNameable found.now child }
    ensures within { IsTrue result → child < length found.now }
{
    child != ROOT && (child as usize) < found.len() && found[child as usize].is_some()
}

/// Notes the directory for a number that an entry of it names: false where it may not name it, or some directory is noted
/// for it.
fn note(found: &[Option<FoundInode>], parents: &mut [u32], ino: u32, child: u32) -> bool
    requires { length parents.old ≡ length found.now }
    ensures may { IsTrue result → IsNameable found.now child }
    ensures noted { IsTrue result → Notes parents.old parents.new ino child }
    ensures not { result ≡ false → ¬ IsNameable found.now child
        ⊎ (slice_index parents.old child ≢ 0) }
{
    if !is_nameable(found, child) {
        return false;
    }
    if parents[child as usize] != 0 {
        return false;
    }
    parents[child as usize] = ino;
    true
}

/// Notes the directory for each number that an entry of it names: false where one may not be named, or is named already.
pub(crate) fn note_entries(
    found: &[Option<FoundInode>],
    parents: &mut [u32],
    ino: u32,
    entries: &[Entry],
) -> bool
    requires size { length parents.old ≡ length found.now }
    requires low { 1 ≤ ino }
    ensures noted { let cs = numbers entries.now in
        IsTrue result → NotesEach found.now cs (length entries.now) parents.old parents.new ino }
    ensures not { result ≡ false → IsOffSomewhere found.now (numbers entries.now) parents.old }
{
    'entries: for k in 0..entries.len() {
        if !note(found, parents, ino, entries[k].ino) {
            return false;
        }
    }
    true
}
