//! The numbers that are reached from the root, and the paths on which they are.

ghost use Rattle.std.specs.Prelude.{◌≡◌, ◌<◌, ◌≤◌, ◌++◌, ◌∷◌, [], ◌↔◌, ℕ, length, true, false, IsTrue, IsSome, IfOk, OnOk, MatchOption, Some, None, Contains, List as Items};
ghost use Rattle.std.specs.List.{slice_index_or};
ghost use Rattle.hl_dir.specs.Dirs.{AreNames, IsName};
ghost use Rattle.hl_paths.specs.Links.{resolve};
ghost use Rattle.hl_paths.specs.Numbered.{links};
ghost use Rattle.hl_dir.specs.declared.entry.Entry.{Entry};
ghost use Rattle.hl_found.specs.declared.directories.FoundUse.TheVariants.{Directory};
ghost use Rattle.hl_found.specs.declared.reach.Reached.{Reached};
ghost use Rattle.hl_found.specs.Reach.{AreReached, Closes, FindsPlaces, Goes, HasChildren};
ghost use Rattle.hl_found.specs.Reach.{HasEntriesOf, HasNumber, HasRootEntries, HaveNames};
ghost use Rattle.hl_found.specs.Reach.{LeadTo, OfUses, at_path};

use crate::directories::FoundUse;
use hl_dir::Entry;
use hl_tree::{Copied, List, Path};
use std::alloc::{AllocError, Global};

/// A number, and the path on which it is reached.
#[derive(Drop)]
pub struct Reached {
    pub path: Path,
    pub number: u32,
}

/// Whether a number is in use.
fn is_in_use(uses: &[Option<FoundUse>], number: u32) -> bool
    ensures { IsTrue result ↔ IsSome (slice_index_or uses.now number None) }
{
    (number as usize) < uses.len() && uses[number as usize].is_some()
}

/// The place of a number among those that are reached.
pub(crate) fn place_of(reached: &[Reached], number: usize) -> Option<usize>
    ensures { MatchOption result
        ((i : ℕ) (d : Reached) → i < length reached.now
        → (slice_index_or reached.now i d).number ≡ number → ⊥)
        (λ i. (i < length reached.now)
        × ((d : Reached) → (slice_index_or reached.now i d).number ≡ number)) }
{
    'each: for i in 0..reached.len() {
        if reached[i].number as usize == number {
            return Some(i);
        }
    }
    None
}

/// The path with one name more.
fn child_path(alloc: Global, path: &Path, name: &List<u8>) -> Result<Path, AllocError>
    requires { IsName name.now }
    ensures { IfOk result (λ p. p ≡ path.now ++ name.now ∷ []) }
{
    let mut names = List::<u8>::copies(alloc, path.names())?;
    names.push(name.copy(alloc)?)?;
    match Path::new(names) {
        Some(child) => Ok(child),
        None => Ok(Path::root(alloc)),
    }
}

fn is_same_name(one: &List<u8>, other: &List<u8>) -> bool
    ensures { IsTrue result ↔ one.now ≡ other.now }
{
    one.items() == other.items()
}

/// Whether two paths are one, name by name.
fn is_same(one: &[List<u8>], other: &[List<u8>]) -> bool
    ensures { IsTrue result ↔ one.now ≡ other.now }
{
    if one.len() != other.len() {
        return false;
    }
    'names: for i in 0..one.len() {
        if !is_same_name(&one[i], &other[i]) {
            return false;
        }
    }
    true
}

/// Whether what stands at a place is reached on this path.
fn is_on_path(reached: &[Reached], at: usize, path: &Path) -> bool
    requires { at < length reached.now }
    ensures { (d : Reached) → IsTrue result ↔ (slice_index_or reached.now at d).path ≡ path.now }
{
    is_same(reached[at].path.names(), path.names())
}

/// Reaches the number of an entry in the directory at a path: false where it isn't in use, or is
/// reached on another path.
fn reach_entry(
    alloc: Global,
    uses: &[Option<FoundUse>],
    reached: &mut Vec<Reached>,
    path: &Path,
    entry: &Entry,
) -> Result<bool, AllocError>
    requires { IsName entry.now.name }
    ensures { let child = path.now ++ entry.now.name ∷ [] in
        let new = reached.new.items in
        let has = Contains new (at_path child entry.now.ino) in
        IfOk result (λ r. OfUses uses.now (λ numbered. AreReached numbered reached.old.items
        → resolve (links numbered) child ≡ Some entry.now.ino
        → Goes numbered reached.old.items new has r)) }
{
    if !is_in_use(uses, entry.ino) {
        return Ok(false);
    }
    let child = child_path(alloc, path, &entry.name)?;
    match place_of(reached.as_slice(), entry.ino as usize) {
        Some(i) => Ok(is_on_path(reached.as_slice(), i, &child)),
        None => {
            reached.push(Reached {
                path: child,
                number: entry.ino,
            })?;
            Ok(true)
        }
    }
}

/// Reaches the numbers of the entries of the directory at a path: false where one isn't in use, or
/// is reached on another path.
fn reach_entries(
    alloc: Global,
    uses: &[Option<FoundUse>],
    reached: &mut Vec<Reached>,
    path: &Path,
    entries: &[Entry],
) -> Result<bool, AllocError>
    requires { AreNames entries.now }
    ensures { let new = reached.new.items in
        let has = HasEntriesOf path.now entries.now (length entries.now) new in
        IfOk result (λ r. OfUses uses.now (λ numbered. AreReached numbered reached.old.items
        → LeadTo numbered path.now entries.now
        → Goes numbered reached.old.items new has r)) }
{
    'each: for k in 0..entries.len() {
        if !reach_entry(alloc, uses, reached, path, &entries[k])? {
            return Ok(false);
        }
    }
    Ok(true)
}

/// The path of what stands at a place.
fn path_at(alloc: Global, reached: &[Reached], at: usize) -> Result<Path, AllocError>
    requires { at < length reached.now }
    ensures { IfOk result (λ p. (d : Reached) → p ≡ (slice_index_or reached.now at d).path) }
{
    reached[at].path.copy(alloc)
}

/// The number of what stands at a place.
fn number_at(reached: &[Reached], at: usize) -> u32
    requires { at < length reached.now }
    ensures { (d : Reached) → result ≡ (slice_index_or reached.now at d).number }
{
    reached[at].number
}

/// The entries of the directory of a number, if it is one.
fn entries_at(uses: &[Option<FoundUse>], number: u32) -> Option<&[Entry]>
    ensures { let own = slice_index_or uses.now number None in
        MatchOption result ((es : Items Entry) → own ≡ Some (Directory es) → ⊥)
        (λ es. own ≡ Some (Directory es.now)) }
{
    if number as usize >= uses.len() {
        return None;
    }
    match &uses[number as usize] {
        Some(FoundUse::Directory(entries)) => Some(entries.items()),
        _ => None,
    }
}

/// Reaches the children of what stands at a place of the list: false where one isn't in use, or is
/// reached on another path.
fn reach_children(
    alloc: Global,
    uses: &[Option<FoundUse>],
    reached: &mut Vec<Reached>,
    at: usize,
) -> Result<bool, AllocError>
    requires there { at < length reached.old.items }
    requires names { HaveNames uses.now }
    ensures { let new = reached.new.items in
        IfOk result (λ r. OfUses uses.now (λ numbered. AreReached numbered reached.old.items
        → (d : Reached) → Goes numbered reached.old.items new
        (HasChildren numbered (slice_index_or reached.old.items at d) new) r)) }
{
    let path = path_at(alloc, reached.as_slice(), at)?;
    let number = number_at(reached.as_slice(), at);
    match entries_at(uses, number) {
        Some(entries) => {
            let linked = reach_entries(alloc, uses, reached, &path, entries)?;
            Ok(linked)
        }
        None => Ok(true),
    }
}

/// Reaches all that the root leads to: false where an entry names a number that isn't in use, or
/// one that is reached on another path.
fn reach_all(
    alloc: Global,
    uses: &[Option<FoundUse>],
    reached: &mut Vec<Reached>,
) -> Result<bool, AllocError>
    requires names { HaveNames uses.now }
    ensures { let new = reached.new.items in
        IfOk result (λ r. OfUses uses.now (λ numbered. AreReached numbered reached.old.items
        → Contains reached.old.items (at_path [] 1) → Closes numbered new r)) }
{
    'places: for at in 0..usize::MAX {
        if at >= reached.len() {
            break;
        }
        if !reach_children(alloc, uses, reached, at)? {
            return Ok(false);
        }
    }
    Ok(true)
}

/// Whether a number is reached.
fn has_number(reached: &[Reached], number: usize) -> bool
    ensures { IsTrue result ↔ HasNumber number reached.now }
{
    match place_of(reached, number) {
        Some(_) => true,
        None => false,
    }
}

/// Whether a number is reached, if it is in use.
fn is_reached(uses: &[Option<FoundUse>], reached: &[Reached], number: usize) -> bool
    requires { number < length uses.now }
    ensures { let used = slice_index_or uses.now number None in
        IsTrue result ↔ (IsSome used → HasNumber number reached.now) }
{
    match &uses[number] {
        Some(_) => has_number(reached, number),
        None => true,
    }
}

/// Whether each number in use is reached.
fn all_are_reached(uses: &[Option<FoundUse>], reached: &[Reached]) -> bool
    ensures { IsTrue result ↔ ((number : ℕ) → IsSome (slice_index_or uses.now number None)
        → HasNumber number reached.now) }
{
    'numbers: for number in 0..uses.len() {
        if !is_reached(uses, reached, number) {
            return false;
        }
    }
    true
}

/// The numbers that are reached from the root, which is a directory, each with its path; none where
/// an entry names a number that isn't in use, or one that is reached on another path, or where a
/// number in use isn't reached. For each entry it goes over what is reached.
pub fn places_of(
    alloc: Global,
    uses: &[Option<FoundUse>],
) -> Result<Option<Vec<Reached>>, AllocError>
    requires names { HaveNames uses.now }
    ensures { IfOk result (λ r. OfUses uses.now
        (λ numbered. HasRootEntries numbered → FindsPlaces numbered r)) }
{
    let mut reached = Vec::new(alloc);
    reached.push(Reached {
        path: Path::root(alloc),
        number: 1,
    })?;
    if !reach_all(alloc, uses, &mut reached)? {
        return Ok(None);
    }
    if !all_are_reached(uses, reached.as_slice()) {
        return Ok(None);
    }
    Ok(Some(reached))
}
