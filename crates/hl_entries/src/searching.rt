//! Searching a directory's bytes for a name.

ghost use Rattle.std.specs.Prelude.{◌≡◌, ◌≤◌, ◌<◌, ◌+◌, length, slice_index, IfSome, IfNone, MatchResult};
ghost use Rattle.std.specs.Option.{option_map};
ghost use Rattle.hl_paths.specs.Entries.{entry_number};
ghost use Rattle.hl_entries.specs.Places.{IfSpells, entry_place};
ghost use Rattle.hl_entries.specs.Searches.{Finds};

use crate::place::EntryPlace;
use hl_bytes::get_u32;
use std::cmp::Ordering;

/// Where the entry that begins at `at` ends, if a whole one stands there.
pub(crate) fn entry_end(bytes: &[u8], at: usize) -> Option<usize>
    requires { at ≤ length bytes.now }
    ensures end { IfSome result (λ end. end ≡ at + (5 + slice_index bytes.now (at + 4))) }
    ensures within { IfSome result (λ end. end ≤ length bytes.now) }
    ensures cut { IfNone result (length bytes.now < at + (5 + slice_index bytes.now (at + 4))) }
{
    let left = bytes.len() - at;
    if left < 5 {
        return None;
    }
    let size = 5 + bytes[at + 4] as usize;
    if left < size { None } else { Some(at + size) }
}

/// The entry of a name, or where it would begin.
pub(crate) fn search(bytes: &[u8], name: &[u8]) -> Result<EntryPlace, usize>
    ensures found { IfSpells bytes.now (λ es. Finds es name.now result) }
    ensures within { MatchResult result
        (λ place. place.at + (5 + length name.now) ≤ length bytes.now)
        (λ at. at ≤ length bytes.now) }
{
    let mut at = 0;
    'entries: while let Some(end) = entry_end(bytes, at) {
        let named = &bytes[at + 5..end];
        match named.cmp(name) {
            Ordering::Less => at = end,
            Ordering::Equal => {
                let ino = get_u32(bytes, at);
                return Ok(EntryPlace { at, ino });
            }
            Ordering::Greater => return Err(at),
        }
    }
    Err(at)
}

/// The entry of a name: where it stands and the number that it links.
pub fn find(bytes: &[u8], name: &[u8]) -> Option<EntryPlace>
    ensures place { IfSpells bytes.now (λ es. result ≡ entry_place es name.now) }
    ensures number { IfSpells bytes.now
        (λ es. option_map (λ place. place.ino) result ≡ entry_number es name.now) }
    ensures within { IfSome result
        (λ place. place.at + (5 + length name.now) ≤ length bytes.now) }
{
    search(bytes, name).ok()
}
