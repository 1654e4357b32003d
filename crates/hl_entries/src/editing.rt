//! Changing a directory's bytes where they lie.

ghost use Rattle.std.specs.Prelude.{◌≡◌, ◌≤◌, ◌<◌, ◌+◌, ◌++◌, length, take, drop, IfSome, IfNone, IfOk, OnOk, OnErr, OnSome};
ghost use Rattle.hl_bytes.specs.Fields.{written, le32};
ghost use Rattle.hl_dir.specs.Dirs.{IsName, entry_bytes};
ghost use Rattle.hl_paths.specs.Entries.{with_entry, without_entry};
ghost use Rattle.hl_entries.specs.Places.{IfSpells, Become, entry_start, entry_at, entry_growth};

use crate::searching::search;
use hl_bytes::{put_bytes, put_u32};
use std::alloc::AllocError;

/// Makes room for `size` bytes at `at`.
fn open(bytes: &mut Vec<u8>, at: usize, size: usize) -> Result<(), AllocError>
    requires within { at ≤ length bytes.old.items }
    requires short { size ≤ 260 }
    ensures len { OnOk result (length bytes.new.items ≡ length bytes.old.items + size) }
    ensures front { OnOk result (take at bytes.new.items ≡ take at bytes.old.items) }
    ensures back { OnOk result (drop (at + size) bytes.new.items ≡ drop at bytes.old.items) }
    ensures memory { OnErr result (bytes.new.items ≡ bytes.old.items) }
{
    let len = bytes.as_slice().len();
    bytes.resize(len + size, 0)?;
    bytes.copy_within(at..len, at + size);
    Ok(())
}

/// Takes out the bytes from `at` to `end`.
fn close(bytes: &mut Vec<u8>, at: usize, end: usize)
    requires ordered { at ≤ end }
    requires within { end ≤ length bytes.old.items }
    ensures { bytes.new.items ≡ take at bytes.old.items ++ drop end bytes.old.items }
{
    let len = bytes.as_slice().len();
    bytes.copy_within(end..len, at);
    bytes.truncate(len - (end - at));
}

/// Writes the number of the entry that begins at `at`.
fn put_number(bytes: &mut Vec<u8>, at: usize, ino: u32)
    requires { at + 4 ≤ length bytes.old.items }
    ensures whole { bytes.new.items ≡ written bytes.old.items at (le32 ino) }
    ensures len { length bytes.new.items ≡ length bytes.old.items }
{
    put_u32(bytes.as_mut_slice(), at, ino);
}

/// Writes the bytes of an entry from `at` on.
fn put_fields(bytes: &mut [u8], at: usize, name: &[u8], ino: u32)
    requires within { at + (5 + length name.now) ≤ length bytes.old }
    requires short { length name.now ≤ 255 }
    ensures { bytes.new
        ≡ written bytes.old at (entry_bytes (record { ino = ino; name = name.now })) }
{
    put_u32(bytes, at, ino);
    put_bytes(bytes, at + 4, &[name.len() as u8]);
    put_bytes(bytes, at + 5, name);
}

/// Writes an entry from `at` on.
fn put_entry(bytes: &mut Vec<u8>, at: usize, name: &[u8], ino: u32)
    requires within { at + (5 + length name.now) ≤ length bytes.old.items }
    requires short { length name.now ≤ 255 }
    ensures whole { bytes.new.items ≡
        written bytes.old.items at (entry_bytes (record { ino = ino; name = name.now })) }
    ensures len { length bytes.new.items ≡ length bytes.old.items }
{
    put_fields(bytes.as_mut_slice(), at, name, ino);
}

/// Links a number from a name: by a new entry in its place in the order, or by the entry that the name
/// has. Answers where the bytes changed from.
pub fn insert(bytes: &mut Vec<u8>, name: &[u8], ino: u32) -> Result<usize, AllocError>
    requires { length name.now ≤ 255 }
    ensures entries { IsName name.now →
        OnOk result (Become (with_entry name.now ino) bytes.old.items bytes.new.items) }
    ensures place { IfOk result
        (λ at. IfSpells bytes.old.items (λ es. at ≡ entry_start es name.now)) }
    ensures within { IfOk result (λ at. at ≤ length bytes.old.items) }
    ensures front { IfOk result (λ at. take at bytes.new.items ≡ take at bytes.old.items) }
    ensures len { OnOk result (IfSpells bytes.old.items
        (λ es. length bytes.new.items ≡ length bytes.old.items + entry_growth es name.now)) }
    ensures memory { OnErr result (bytes.new.items ≡ bytes.old.items) }
{
    match search(bytes.as_slice(), name) {
        Ok(place) => {
            put_number(bytes, place.at, ino);
            Ok(place.at)
        }
        Err(at) => {
            open(bytes, at, 5 + name.len())?;
            put_entry(bytes, at, name, ino);
            Ok(at)
        }
    }
}

/// Links another number from the entry of a name, if there is one: its first four bytes are written.
/// Answers where the bytes changed from.
pub fn replace(bytes: &mut Vec<u8>, name: &[u8], ino: u32) -> Option<usize>
    ensures entries { OnSome result
        (Become (with_entry name.now ino) bytes.old.items bytes.new.items) }
    ensures place { IfSpells bytes.old.items (λ es. result ≡ entry_at es name.now) }
    ensures within { IfSome result
        (λ at. at + (5 + length name.now) ≤ length bytes.old.items) }
    ensures number { IfSome result (λ at. bytes.new.items ≡ written bytes.old.items at (le32 ino)) }
    ensures front { IfSome result (λ at. take at bytes.new.items ≡ take at bytes.old.items) }
    ensures len { length bytes.new.items ≡ length bytes.old.items }
    ensures none { IfNone result (bytes.new.items ≡ bytes.old.items) }
{
    let Ok(place) = search(bytes.as_slice(), name) else {
        return None;
    };
    put_number(bytes, place.at, ino);
    Some(place.at)
}

/// Takes out the entry of a name, if there is one. Answers where the bytes changed from.
pub fn remove(bytes: &mut Vec<u8>, name: &[u8]) -> Option<usize>
    ensures entries { Become (without_entry name.now) bytes.old.items bytes.new.items }
    ensures place { IfSpells bytes.old.items (λ es. result ≡ entry_at es name.now) }
    ensures within { IfSome result (λ at. at ≤ length bytes.new.items) }
    ensures front { IfSome result (λ at. take at bytes.new.items ≡ take at bytes.old.items) }
    ensures len { OnSome result
        (length bytes.new.items + (5 + length name.now) ≡ length bytes.old.items) }
    ensures none { IfNone result (bytes.new.items ≡ bytes.old.items) }
{
    let Ok(place) = search(bytes.as_slice(), name) else {
        return None;
    };
    close(bytes, place.at, place.at + 5 + name.len());
    Some(place.at)
}
